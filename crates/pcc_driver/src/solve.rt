ghost use Rattle.std.specs.Prelude.{◌≡◌, ◌≤◌, ℕ, length, IfOk, MatchResult};
ghost use Rattle.puzzle_solver.specs.Reading.{IsReadAs, fresh_board};
ghost use Rattle.pcc_driver.specs.Answers.{GivesNoAnswer, HasNoTokens, SolveTold};
ghost use Rattle.pcc_driver.specs.Causes.{FilesCause, StreamsCause};
ghost use Rattle.pcc_driver.specs.Outside.{SameFiles, output_of};
ghost use Rattle.pcc_driver.specs.Solutions.{IsAnswer, IsSolution};

use crate::answered::put_answer;
use crate::reading::FILE_LIMIT;
use crate::report::{Named, Report};
use crate::typed_sources::read_report;
use pcc_base::{NoMemory, Steps};
use pcc_outside::{FileStore, Sink};
use puzzle_board::Board;
use puzzle_solver::{BoardRefusal, print_placement, read_board};
use std::alloc::Global;
use std::marker::Brand;
use std::sync::ledger::{Blank, Ledger};

/// The board of a text, or why it has none.
pub fn board_of<L: Ledger>(alloc: Global, text: &[u8]) -> Result<Board<L>, Report>
    requires { length text.now ≤ 4294967295 }
    ensures { MatchResult result (λ board. IsReadAs text.now board) (GivesNoAnswer text.now) }
{
    match read_board::<L>(alloc, text) {
        Ok(board) => Ok(board),
        Err(BoardRefusal::BadBoard) => Err(Report::BadBoard),
        Err(BoardRefusal::NoMemory) => Err(Report::NoMemory),
    }
}

/// The answer on a board on which nothing stands: the text of a legal placement of its pieces, or `none`. The only
/// refusal is want of memory.
fn answer_on<L: Ledger>(
    alloc: Global,
    board: &mut Board<L>,
    steps: &mut Steps<L>,
) -> Result<Vec<u8>, NoMemory>
    requires fresh { board.old ≡ fresh_board board.old.areas board.old.pieces }
    ensures { IfOk result (λ answer. IsAnswer board.old.areas board.old.pieces answer.items) }
{
    if puzzle_solver::solve(board, steps) {
        return print_placement(alloc, board, steps);
    }
    Ok(Vec::from_slice(alloc, b"none\n")?)
}

/// The same of the board of a text, with a counter of steps, which the board asks for; or why it has none.
fn answer_counted<L: Ledger>(alloc: Global, text: &[u8], blank: Blank) -> Result<Vec<u8>, Report>
    requires few { length text.now ≤ 4294967295 }
    requires name { blank.name ≡ L.name }
    requires parts { blank.parts ≡ L.parts }
    requires one { L.parts ≡ 1 }
    ensures { MatchResult result (λ answer. IsSolution text.now answer.items) (GivesNoAnswer text.now) }
{
    let mut board = board_of::<L>(alloc, text)?;
    match answer_on(alloc, &mut board, &mut Steps::<L>::new(blank)) {
        Ok(answer) => Ok(answer),
        Err(NoMemory) => Err(Report::NoMemory),
    }
}

/// The answer on the board of a text, or why it has none.
fn answer_of(alloc: Global, text: &[u8]) -> Result<Vec<u8>, Report>
    requires { length text.now ≤ 4294967295 }
    ensures { MatchResult result (λ answer. IsSolution text.now answer.items) (GivesNoAnswer text.now) }
{
    answer_counted::<Brand>(alloc, text, Blank::new(1))
}

/// Reads the board of the file, and puts a legal placement of its pieces on the output, or `none` where there is none.
/// No file is changed.
pub fn solve<F: FileStore, O: Sink>(alloc: Global, file: &str, files: &mut F, out: &mut O) -> Report
    ensures own { HasNoTokens result }
    ensures files_cause { FilesCause result (F.counts files.old) (F.counts files.new) }
    // It speaks of no input.
    ensures streams_cause { (input : ℕ) → StreamsCause result input input (O.counts out.old) (O.counts out.new) }
    ensures files_tell { F.tells files.old → F.tells files.new }
    ensures out_tells { O.tells out.old → O.tells out.new }
    ensures same { F.tells files.old → SameFiles (F.content files.old) (F.content files.new) }
    ensures told { F.tells files.old →
        SolveTold (F.content files.old file.now) (output_of O.Sink out.old) (output_of O.Sink out.new) result }
{
    let text = match files.read(alloc, file, FILE_LIMIT) {
        Ok(text) => text,
        Err(refusal) => return read_report(refusal, Named::Board),
    };
    match answer_of(alloc, text.as_slice()) {
        Ok(answer) => put_answer(answer.as_slice(), out),
        Err(report) => report,
    }
}
