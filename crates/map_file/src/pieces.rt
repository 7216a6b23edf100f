//! Which pieces the board of a point may have.

ghost use Rattle.std.specs.Prelude.{All, IfSome};
ghost use Rattle.std.specs.Bool.{Decides};
ghost use Rattle.map_text.specs.Rules.{AreInOrder, ComesBefore, IsMapPiece};
ghost use Rattle.map_file.specs.Views.{function_of};

use crate::file::MapFunction;
use crate::needs::has_width;
use puzzle_board::{Kind, Piece};

/// Whether a piece is of a variable of the function, and as wide.
fn is_piece(function: &MapFunction, piece: Piece) -> bool
    ensures { Decides result (IsMapPiece (function_of function.now).variables piece) }
{
    has_width(function, piece.var, piece.width)
}

/// Whether each piece is of a variable of the function, and as wide.
fn are_of_variables(function: &MapFunction, pieces: &[Piece]) -> bool
    ensures { Decides result (All (IsMapPiece (function_of function.now).variables) pieces.now) }
{
    pieces.iter().all(|piece| is_piece(function, *piece))
}

/// Whether one piece comes before another: its variable is smaller, or both are of one, an X and then a Z.
fn comes_before(first: Piece, second: Piece) -> bool
    ensures { Decides result (ComesBefore first second) }
{
    if first.var < second.var {
        return true;
    }
    if second.var < first.var {
        return false;
    }
    matches!((first.kind, second.kind), (Kind::X, Kind::Z))
}

/// Whether a piece comes behind the last one, if there is one.
fn follows(last: Option<Piece>, piece: Piece) -> bool
    ensures { Decides result (IfSome last (λ last. ComesBefore last piece)) }
{
    match last {
        Some(last) => comes_before(last, piece),
        None => true,
    }
}

/// Whether each piece comes before those behind it.
fn are_in_order(pieces: &[Piece]) -> bool
    ensures { Decides result (AreInOrder pieces.now) }
{
    let mut last = None;
    for piece in pieces {
        if !follows(last, *piece) {
            return false;
        }
        last = Some(*piece);
    }
    true
}

/// Whether the pieces are of variables of the function, as wide, and in order.
pub(crate) fn are_pieces(function: &MapFunction, pieces: &[Piece]) -> bool
    ensures { Decides result (All (IsMapPiece (function_of function.now).variables) pieces.now × AreInOrder pieces.now) }
{
    are_in_order(pieces) && are_of_variables(function, pieces)
}
