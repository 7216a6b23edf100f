//! The places of a point's pieces.

ghost use Rattle.std.specs.Prelude.{ℕ, ◌≡◌, ◌<◌, [], length, slice_get, None, Some, IfOk, OnOk};
ghost use Rattle.puzzle_board.specs.declared.piece.Piece.{Piece};
ghost use Rattle.puzzle_board.specs.Places.{entries_at};
ghost use Rattle.allocator.specs.Order.{AreInOrder};
ghost use Rattle.allocator.specs.Sides.{ArePut, ChangesPoint, is_lower, is_upper, with_fixed, with_kind};
ghost use Rattle.allocator.specs.Slots.{HasSlot, slot_in};
ghost use Rattle.allocator.specs.Solutions.{ArePlaces, StandsIn};

use pcc_base::NoMemory;
use puzzle_board::{Kind, Piece, Place, PointMap, Spot};
use std::alloc::Global;

/// Where a variable's piece stands: at its spot, or else in the variable's slot.
fn place_of(map: &PointMap, var: u32, spot: Option<Spot>) -> Place
    requires var { var < length map.now.slots }
    requires slot { spot ≡ None → HasSlot map.now.slots var }
    ensures { StandsIn spot (slot_in map.now.slots var) result }
{
    match (spot, map.slot(var)) {
        (Some(spot), _) => Place::Cells(spot),
        (None, Some(offset)) => Place::Slot(offset),
        (None, None) => unreachable!(),
    }
}

/// The places of pieces: those without a spot stand in the slots of their variables.
pub(crate) fn places_of(
    alloc: Global,
    map: &PointMap,
    pieces: &[Piece],
    spots: &[Option<Spot>],
) -> Result<Vec<Place>, NoMemory>
    requires many { length spots.now ≡ length pieces.now }
    requires vars { (k : ℕ) (p : Piece) → slice_get pieces.now k ≡ Some p → p.var < length map.now.slots }
    requires slots { (k : ℕ) (p : Piece) → slice_get pieces.now k ≡ Some p → slice_get spots.now k ≡ Some None
        → HasSlot map.now.slots p.var }
    ensures { IfOk result (λ places. ArePlaces map.now.slots pieces.now spots.now places.items) }
{
    let mut places = Vec::new(alloc);
    for i in 0..pieces.len() {
        places.push(place_of(map, pieces[i].var, spots[i]))?;
    }
    Ok(places)
}

/// Says where a piece stands at a point: before the op, after it, or both.
fn put_piece(map: &mut PointMap, point: u32, piece: Piece, place: Place) -> Result<(), NoMemory>
    requires { point < length map.old.before }
    ensures { OnOk result (map.new ≡ with_kind map.old point piece.kind piece.var place) }
{
    match piece.kind {
        Kind::X => map.set_before(point, piece.var, place),
        Kind::Y => {
            map.set_before(point, piece.var, place)?;
            map.set_after(point, piece.var, place)
        }
        Kind::Z => map.set_after(point, piece.var, place),
    }
}

/// Says where the pieces of a point stand, of which nothing was said before.
pub(crate) fn put_pieces(
    map: &mut PointMap,
    point: u32,
    pieces: &[Piece],
    places: &[Place],
) -> Result<(), NoMemory>
    requires befores { point < length map.old.before }
    requires afters { point < length map.old.after }
    requires order { AreInOrder pieces.now }
    requires many { length places.now ≡ length pieces.now }
    requires none_before { entries_at map.old.before point ≡ [] }
    requires none_after { entries_at map.old.after point ≡ [] }
    ensures changes { OnOk result (ChangesPoint point map.old map.new) }
    ensures before { OnOk result (
        ArePut is_upper pieces.now places.now (length pieces.now) (entries_at map.new.before point)) }
    ensures after { OnOk result (
        ArePut is_lower pieces.now places.now (length pieces.now) (entries_at map.new.after point)) }
{
    for i in 0..pieces.len() {
        put_piece(map, point, pieces[i], places[i])?;
    }
    Ok(())
}

/// Says that a fixed operand stands in its register before a point.
fn put_operand(map: &mut PointMap, point: u32, operand: Option<(u32, Spot)>) -> Result<(), NoMemory>
    requires befores { point < length map.old.before }
    ensures changes { OnOk result (ChangesPoint point map.old map.new) }
    ensures before { OnOk result (entries_at map.new.before point
        ≡ with_fixed operand (entries_at map.old.before point)) }
    ensures after { OnOk result (map.new.after ≡ map.old.after) }
{
    match operand {
        Some((var, spot)) => map.set_before(point, var, Place::Cells(spot)),
        None => Ok(()),
    }
}

/// Says that a fixed result stands in its register after a point.
fn put_result(map: &mut PointMap, point: u32, fixed: Option<(u32, Spot)>) -> Result<(), NoMemory>
    requires befores { point < length map.old.before }
    requires afters { point < length map.old.after }
    ensures changes { OnOk result (ChangesPoint point map.old map.new) }
    ensures before { OnOk result (map.new.before ≡ map.old.before) }
    ensures after { OnOk result (entries_at map.new.after point
        ≡ with_fixed fixed (entries_at map.old.after point)) }
{
    match fixed {
        Some((var, spot)) => map.set_after(point, var, Place::Cells(spot)),
        None => Ok(()),
    }
}

/// Says that the fixed operand and the fixed result of a point stand in their registers.
pub(crate) fn put_fixed(
    map: &mut PointMap,
    point: u32,
    operand: Option<(u32, Spot)>,
    fixed: Option<(u32, Spot)>,
) -> Result<(), NoMemory>
    requires befores { point < length map.old.before }
    requires afters { point < length map.old.after }
    ensures changes { OnOk result (ChangesPoint point map.old map.new) }
    ensures before { OnOk result (entries_at map.new.before point
        ≡ with_fixed operand (entries_at map.old.before point)) }
    ensures after { OnOk result (entries_at map.new.after point
        ≡ with_fixed fixed (entries_at map.old.after point)) }
{
    put_operand(map, point, operand)?;
    put_result(map, point, fixed)
}
