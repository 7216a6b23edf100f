//! `least`: the fewest pieces of a board are removed, so that the others have a legal placement.

ghost use Rattle.std.specs.Prelude.{◌≡◌, ◌≤◌, ◌++◌, ℕ, decimal, length, map, IfOk, OnOk, MatchResult};
ghost use Rattle.puzzle_solver.specs.Reading.{fresh_board};
ghost use Rattle.puzzle_solver.specs.Texts.{IsNumbered, spaced};
ghost use Rattle.pcc_driver.specs.Answers.{GivesNoRemoval, LeastTold};
ghost use Rattle.pcc_driver.specs.Causes.{FilesCause, StreamsCause};
ghost use Rattle.pcc_driver.specs.Outside.{SameFiles, output_of};
ghost use Rattle.pcc_driver.specs.Removals.{IsRemoval, IsRemovalOf, removed_line};

use crate::answered::put_answer;
use crate::reading::FILE_LIMIT;
use crate::report::{Named, Report};
use crate::solve::board_of;
use crate::typed_sources::read_report;
use map_text::push_number;
use pcc_base::{NoMemory, Steps};
use pcc_outside::{FileStore, Sink};
use puzzle_board::Board;
use puzzle_solver::print_placement;
use std::alloc::Global;
use std::marker::Brand;
use std::sync::ledger::{Blank, Ledger};

/// The most areas of a board that is taken.
const AREA_LIMIT: u32 = 64;

/// The most pieces of one.
const PIECE_LIMIT: u32 = 256;

/// Puts each number at the end, behind a space.
fn push_numbers(out: &mut Vec<u8>, numbers: &[u32]) -> Result<(), NoMemory>
    ensures { OnOk result (out.new.items ≡ out.old.items ++ spaced (map decimal numbers.now)) }
{
    for number in numbers {
        out.push(b' ')?;
        push_number(out, u64::from(*number))?;
    }
    Ok(())
}

/// The line of the removed pieces.
fn line_of_removed(alloc: Global, removed: &[u32]) -> Result<Vec<u8>, NoMemory>
    ensures { IfOk result (λ line. line.items ≡ removed_line removed.now) }
{
    let mut line = Vec::new(alloc);
    line.extend_from_slice(b"removed")?;
    push_numbers(&mut line, removed)?;
    line.push(b'\n')?;
    Ok(line)
}

/// The answer on a board on which nothing stands: the pieces that are removed, the fewest that do, and the text of a
/// legal placement of the others. The only refusal is want of memory.
fn removal_on<L: Ledger>(
    alloc: Global,
    board: &mut Board<L>,
    steps: &mut Steps<L>,
) -> Result<Vec<u8>, NoMemory>
    requires fresh { board.old ≡ fresh_board board.old.areas board.old.pieces }
    requires numbered { IsNumbered 0 board.old.pieces }
    ensures { IfOk result (λ answer. IsRemoval board.old.areas board.old.pieces answer.items) }
{
    let removed = least_spill::least(alloc, board, steps)?;
    let mut answer = line_of_removed(alloc, removed.as_slice())?;
    let placement = print_placement(alloc, board, steps)?;
    answer.extend_from_slice(placement.as_slice())?;
    Ok(answer)
}

/// The same of the board of a text, with a counter of steps, which the board asks for; or why it has none.
fn removal_counted<L: Ledger>(alloc: Global, text: &[u8], blank: Blank) -> Result<Vec<u8>, Report>
    requires few { length text.now ≤ 4294967295 }
    requires name { blank.name ≡ L.name }
    requires parts { blank.parts ≡ L.parts }
    requires one { L.parts ≡ 1 }
    ensures { MatchResult result (λ answer. IsRemovalOf text.now answer.items) (GivesNoRemoval text.now) }
{
    let mut board = board_of::<L>(alloc, text)?;
    let mut steps = Steps::<L>::new(blank);
    let areas = board.areas(&mut steps);
    let pieces = board.pieces(&mut steps);
    if areas > AREA_LIMIT || pieces > PIECE_LIMIT {
        return Err(Report::LargeBoard { areas, pieces });
    }
    match removal_on(alloc, &mut board, &mut steps) {
        Ok(answer) => Ok(answer),
        Err(NoMemory) => Err(Report::NoMemory),
    }
}

/// The answer on the board of a text, or why it has none.
fn removal_of(alloc: Global, text: &[u8]) -> Result<Vec<u8>, Report>
    requires { length text.now ≤ 4294967295 }
    ensures { MatchResult result (λ answer. IsRemovalOf text.now answer.items) (GivesNoRemoval text.now) }
{
    removal_counted::<Brand>(alloc, text, Blank::new(1))
}

/// Reads the board of the file, and puts the fewest pieces without which it is solvable, and a legal placement of the
/// others, on the output. No file is changed.
pub fn least<F: FileStore, O: Sink>(alloc: Global, file: &str, files: &mut F, out: &mut O) -> Report
    ensures files_cause { FilesCause result (F.counts files.old) (F.counts files.new) }
    // It speaks of no input.
    ensures streams_cause { (input : ℕ) → StreamsCause result input input (O.counts out.old) (O.counts out.new) }
    ensures files_tell { F.tells files.old → F.tells files.new }
    ensures out_tells { O.tells out.old → O.tells out.new }
    ensures same { F.tells files.old → SameFiles (F.content files.old) (F.content files.new) }
    ensures told { F.tells files.old →
        LeastTold (F.content files.old file.now) (output_of O.Sink out.old) (output_of O.Sink out.new) result }
{
    let text = match files.read(alloc, file, FILE_LIMIT) {
        Ok(text) => text,
        Err(refusal) => return read_report(refusal, Named::Board),
    };
    match removal_of(alloc, text.as_slice()) {
        Ok(answer) => put_answer(answer.as_slice(), out),
        Err(report) => report,
    }
}
