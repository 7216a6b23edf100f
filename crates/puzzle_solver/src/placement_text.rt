ghost use Rattle.std.specs.Prelude.{◌≡◌, ◌<◌, ◌++◌, length, slice_get, Some, IfOk, OnOk};
ghost use Rattle.puzzle_board.specs.declared.piece.Piece.{Piece};
ghost use Rattle.puzzle_board.specs.declared.piece.State.{State};
ghost use Rattle.puzzle_solver.specs.Texts.{line_of, placed_line, placement_text};

use crate::words::{columns, digit, letter, push_number};
use pcc_base::{NoMemory, Steps};
use puzzle_board::{Board, Piece, Spot};
use std::alloc::Global;
use std::sync::ledger::Ledger;

/// Puts the line of a piece at the end.
fn push_line(
    alloc: Global,
    out: &mut Vec<u8>,
    number: u32,
    piece: Piece,
    spot: Spot,
) -> Result<(), NoMemory>
    ensures { OnOk result (out.new.items ≡ out.old.items ++ placed_line number piece spot) }
{
    push_number(alloc, out, number)?;
    out.push(b' ')?;
    out.push(letter(piece.kind))?;
    out.push(digit(piece.width))?;
    out.push(b' ')?;
    push_number(alloc, out, spot.area)?;
    out.push(b' ')?;
    out.extend_from_slice(columns(spot.columns).as_bytes())?;
    out.push(b'\n')?;
    Ok(())
}

/// Puts the line of a piece at the end, if it stands somewhere.
fn push_piece<L: Ledger>(
    alloc: Global,
    out: &mut Vec<u8>,
    board: &Board<L>,
    number: u32,
    steps: &mut Steps<L>,
) -> Result<(), NoMemory>
    requires { number < length board.now.pieces }
    ensures { (p : Piece) (s : State) → slice_get board.now.pieces number ≡ Some p
        → slice_get board.now.states number ≡ Some s
        → OnOk result (out.new.items ≡ out.old.items ++ line_of number p s) }
{
    let piece = board.piece(number, steps);
    match board.spot(number, steps) {
        Some(spot) => push_line(alloc, out, number, piece, spot),
        None => Ok(()),
    }
}

/// The text of the placement: a line for each piece that stands somewhere, in the order of the pieces.
///
/// # Errors
///
/// Want of memory.
pub fn print_placement<L: Ledger>(
    alloc: Global,
    board: &Board<L>,
    steps: &mut Steps<L>,
) -> Result<Vec<u8>, NoMemory>
    ensures { IfOk result (λ text. text.items ≡ placement_text board.now) }
{
    let mut text = Vec::new(alloc);
    board.is_board();
    for number in 0..board.pieces(steps) {
        push_piece(alloc, &mut text, board, number, steps)?;
    }
    Ok(text)
}
