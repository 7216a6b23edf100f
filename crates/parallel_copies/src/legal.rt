//! Whether moves can be made all at once.

ghost use Rattle.std.specs.Prelude.{◌≡◌};
ghost use Rattle.std.specs.Bool.{OnTrue};
ghost use Rattle.std.specs.List.{list_all};
ghost use Rattle.ia32_emit.specs.Locations.{distance, place_of};
ghost use Rattle.parallel_copies.specs.Copies.{AreMoves};
ghost use Rattle.parallel_copies.specs.Tests.{all_beside, are_beside, are_one_slot, are_slots_apart, can_repair};
ghost use Rattle.parallel_copies.specs.Tests.{is_move, is_place_for, is_slot_for};

use crate::moves::Move;
use crate::overlap::{distance_of, is_general, overlap, slots_overlap};
use ia32_emit::Location;
use pcc_base::Width;

/// Whether a slot has no byte in common with the word of scratch, and its distance below EBP is one of 32 bits.
fn is_slot_for(offset: i32, word: i32) -> bool
    ensures { result ≡ is_slot_for (distance word) (distance offset) }
{
    !slots_overlap(offset, word) && distance_of(offset) <= 1 << 31
}

/// Whether a place is one for a variable of that width.
fn is_place_for(place: Location, width: Width, word: i32) -> bool
    ensures { result ≡ is_place_for (distance word) width (place_of place) }
{
    match place {
        Location::Word(r) => matches!(width, Width::Two) && is_general(Location::Word(r)),
        Location::Byte(_) => matches!(width, Width::One),
        Location::Slot(offset) => is_slot_for(offset, word),
    }
}

/// Whether two places are one slot, or not both slots.
fn are_one_slot(from: Location, to: Location) -> bool
    ensures { result ≡ are_one_slot (place_of from) (place_of to) }
{
    match (from, to) {
        (Location::Slot(k), Location::Slot(j)) => distance_of(k) == distance_of(j),
        (Location::Slot(_), Location::Word(_) | Location::Byte(_)) => true,
        (Location::Word(_) | Location::Byte(_), _) => true,
    }
}

/// Whether two places are slots without a common byte, or not both slots.
fn are_slots_apart(first: Location, second: Location) -> bool
    ensures { result ≡ are_slots_apart (place_of first) (place_of second) }
{
    match (first, second) {
        (Location::Slot(k), Location::Slot(j)) => !slots_overlap(k, j),
        (Location::Slot(_), Location::Word(_) | Location::Byte(_)) => true,
        (Location::Word(_) | Location::Byte(_), _) => true,
    }
}

/// Whether a move alone can be made.
fn is_move(m: Move, word: i32) -> bool
    ensures { result ≡ is_move (distance word) m }
{
    is_place_for(m.from, m.width, word)
        && is_place_for(m.to, m.width, word)
        && are_one_slot(m.from, m.to)
}

/// Whether two moves can be made at once.
fn are_beside(m: Move, n: Move) -> bool
    ensures { result ≡ are_beside m n }
{
    !overlap(m.from, n.from)
        && !overlap(m.to, n.to)
        && are_slots_apart(m.from, n.to)
        && are_slots_apart(m.to, n.from)
}

/// Whether each two of the moves can be made at once.
fn all_beside(moves: &[Move]) -> bool
    ensures { result ≡ all_beside moves.now }
{
    match moves {
        [] => true,
        [first, rest @ ..] => is_beside_all(*first, rest) && all_beside(rest),
    }
}

/// Whether a move and each of the others can be made at once.
fn is_beside_all(m: Move, others: &[Move]) -> bool
    ensures { result ≡ list_all (are_beside m) others.now }
{
    others.iter().all(|n| are_beside(m, *n))
}

/// Whether each of the moves can be made.
fn are_all_moves(moves: &[Move], word: i32) -> bool
    ensures { result ≡ list_all (is_move (distance word)) moves.now }
{
    moves.iter().all(|m| is_move(*m, word))
}

/// Whether moves pass the test.
fn pass(moves: &[Move], word: i32) -> bool
    ensures { result ≡ can_repair (distance word) moves.now }
{
    distance_of(word) <= 1 << 31 && are_all_moves(moves, word) && all_beside(moves)
}

/// Whether `repair` can make the moves with this word of scratch: their places are for their widths, those that they
/// come from share no byte, nor do those that they lead to, and no slot stands in two moves or in the word.
pub fn can_repair(moves: &[Move], word: i32) -> bool
    ensures test { result ≡ can_repair (distance word) moves.now }
    ensures asked { OnTrue result (AreMoves (distance word) moves.now) }
{
    pass(moves, word)
}
