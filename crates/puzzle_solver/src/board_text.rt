ghost use Rattle.std.specs.Prelude.{◌≡◌, ◌≤◌, ◌≢◌, List, length, IfErr, IfOk, MatchOption};
ghost use Rattle.pcc_base.specs.declared.run.Width.{Width};
ghost use Rattle.puzzle_board.specs.declared.area.Area.{Area};
ghost use Rattle.puzzle_board.specs.declared.piece.Kind.{Kind};
ghost use Rattle.puzzle_solver.specs.Reading.{IsNoBoard, IsReadAs, fresh_board, is_newline, pieces_from, shapes_text};
ghost use Rattle.puzzle_solver.specs.declared.board_text.BoardRefusal.TheVariants.{BadBoard, NoMemory as OutOfMemory};

use crate::word_reading::{areas_in, shapes_in};
use pcc_base::{NoMemory, Width};
use puzzle_board::{Area, Board, Kind, Piece};
use std::alloc::Global;
use std::sync::ledger::Ledger;
use thiserror::Error;

/// Why a text gives no board.
#[derive(Debug, Drop, Error)]
pub enum BoardRefusal {
    #[error("not a board")]
    BadBoard,
    #[error("no memory")]
    NoMemory,
}

impl From<NoMemory> for BoardRefusal {
    ghost from_gives = { λ _ e. e ≡ OutOfMemory };

    fn from(_e: NoMemory) -> BoardRefusal {
        BoardRefusal::NoMemory
    }
}

/// The text is a newline.
fn is_newline(text: &[u8]) -> bool
    ensures { result ≡ is_newline text.now }
{
    if text.len() != 1 {
        return false;
    }
    text[0] == b'\n'
}

/// The areas of a text of two lines, and the kinds and widths of its pieces. None where it is no such text.
fn parts_of(alloc: Global, text: &[u8]) -> Result<Option<(Vec<Area>, Vec<(Kind, Width)>)>, NoMemory>
    ensures { IfOk result (λ found. MatchOption found
        ((areas : List Area) (shapes : List (Kind × Width)) → text.now ≢ shapes_text areas shapes)
        (λ parts. text.now ≡ shapes_text parts.0.items parts.1.items)) }
{
    if !text.starts_with(b"areas") {
        return Ok(None);
    }
    let (areas, middle) = areas_in(alloc, &text[5..])?;
    if !middle.starts_with(b"\npieces") {
        return Ok(None);
    }
    let (shapes, end) = shapes_in(alloc, &middle[7..])?;
    if !is_newline(end) {
        return Ok(None);
    }
    Ok(Some((areas, shapes)))
}

/// A board of these areas and pieces, where piece i has variable i.
fn board_of<L: Ledger>(
    alloc: Global,
    areas: &[Area],
    shapes: &[(Kind, Width)],
) -> Result<Board<L>, NoMemory>
    requires areas { length areas.now ≤ 4294967295 }
    requires shapes { length shapes.now ≤ 4294967295 }
    ensures { IfOk result (λ board. board ≡ fresh_board areas.now (pieces_from 0 shapes.now)) }
{
    let mut board = Board::new(alloc, areas)?;
    for i in 0..shapes.len() {
        let (kind, width) = shapes[i];
        board.add_piece(Piece {
            kind,
            width,
            var: i as u32,
        })?;
    }
    Ok(board)
}

/// The board of a text.
///
/// # Errors
///
/// That the text is no board's, and want of memory.
pub fn read_board<L: Ledger>(alloc: Global, text: &[u8]) -> Result<Board<L>, BoardRefusal>
    requires { length text.now ≤ 4294967295 }
    ensures read { IfOk result (λ board. IsReadAs text.now board) }
    ensures refused { IfErr result (λ e. e ≡ BadBoard → IsNoBoard text.now) }
{
    let Some((areas, shapes)) = parts_of(alloc, text)? else {
        return Err(BoardRefusal::BadBoard);
    };
    Ok(board_of(alloc, &areas, &shapes)?)
}
