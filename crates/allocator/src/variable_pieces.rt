//! The pieces of a variable at a point.

ghost use Rattle.std.specs.Prelude.{◌≡◌, ◌<◌, ◌++◌, ◌&&◌, not, option_map, OnOk, Some, length, slice_get};
ghost use Rattle.allocator.specs.PointBoards as boards;

use crate::elementary::Elementary;
use crate::fixed::{fixed_result, fixed_use};
use crate::variables::{is_listed, is_named};
use flow_graph::Op;
use pcc_base::NoMemory;
use puzzle_board::{Kind, Piece, Spot};

/// The kind of the piece of a variable that is live before a point.
fn use_kind(live_after: bool, is_defined: bool) -> Kind
    ensures { result ≡ boards.use_kind live_after is_defined }
{
    if live_after && !is_defined {
        Kind::Y
    } else {
        Kind::X
    }
}

/// The variable of a fixed piece.
fn variable_of(fixed: Option<(u32, Spot)>) -> Option<u32>
    ensures { result ≡ option_map (λ f. f.0) fixed }
{
    match fixed {
        Some((var, _)) => Some(var),
        None => None,
    }
}

/// The first, and not the second.
fn only(first: bool, second: bool) -> bool
    ensures { result ≡ first && not second }
{
    first && !second
}

/// Puts a piece last, if it is wanted.
fn push_if(pieces: &mut Vec<Piece>, wanted: bool, piece: Piece) -> Result<(), NoMemory>
    ensures { OnOk result (pieces.new.items ≡ pieces.old.items ++ boards.if_so wanted piece) }
{
    if wanted {
        pieces.push(piece)?;
    }
    Ok(())
}

/// Puts the pieces of a variable last.
pub fn push_pieces(
    pieces: &mut Vec<Piece>,
    form: &Elementary,
    point: u32,
    op: &Op,
    var: u32,
) -> Result<(), NoMemory>
    requires op { slice_get form.now.graph.ops point ≡ Some op.now }
    requires var { var < length form.now.graph.widths }
    ensures { OnOk result (pieces.new.items
        ≡ pieces.old.items ++ boards.pieces_of_variable form.now.graph form.now.lives point op.now var) }
{
    form.is_form();
    let width = form.graph().width(var);
    let defined = is_named(op.defined(), var);
    let before = is_listed(form.live().before(point), var);
    let after = is_listed(form.live().after(point), var);
    let fixed_before = is_named(variable_of(fixed_use(op)), var);
    let fixed_after = is_named(variable_of(fixed_result(op)), var);
    let kind = use_kind(after, defined);
    push_if(
        pieces,
        only(before, fixed_before),
        Piece { kind, width, var },
    )?;
    let kind = Kind::Z;
    push_if(
        pieces,
        only(defined, fixed_after),
        Piece { kind, width, var },
    )
}
