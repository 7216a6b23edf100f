//! Which step of the copies comes next.

ghost use Rattle.std.specs.Prelude.{◌≡◌, MatchOption, false, position};
ghost use Rattle.std.specs.List.{list_all, list_any};
ghost use Rattle.ia32_emit.specs.Locations.{distance, place_of};
ghost use Rattle.pcc_base.specs.declared.run.Width.TheVariants.{Two};
ghost use Rattle.parallel_copies.specs.Overlap.{is_same};
ghost use Rattle.parallel_copies.specs.Copies.{source, target};
ghost use Rattle.parallel_copies.specs.Steps.{AreTaken, AreWaiting, IsNext, IsScratch};
ghost use Rattle.parallel_copies.specs.Steps.{is_exchangeable, is_free, is_savable, is_taken, is_whole, lets};

use crate::moves::Move;
use crate::overlap::{is_general, is_same, overlap};
use ia32_emit::Location;
use ia32_insn::Reg32;

/// A step of the copies, by the index of a waiting move.
#[derive(Clone, Copy)]
pub enum Step {
    /// The move is made.
    Copy(usize),
    /// Its two places are exchanged.
    Swap(usize),
    /// The word that it waits for goes to scratch.
    Save(usize, Location),
}

/// Whether the first move doesn't keep the second waiting: it comes from no part of where that leads to.
fn lets(n: Move, m: Move) -> bool
    ensures { result ≡ lets m n }
{
    overlap(n.to, m.to) || !overlap(n.from, m.to)
}

/// Whether no move keeps the move waiting.
fn all_let(m: Move, waiting: &[Move]) -> bool
    ensures { result ≡ list_all (lets m) waiting.now }
{
    waiting.iter().all(|n| lets(*n, m))
}

/// Whether nothing that another move waits for stands where the move leads to.
fn is_free(m: Move, waiting: &[Move]) -> bool
    ensures { result ≡ is_free m waiting.now }
{
    is_same(m.from, m.to) || all_let(m, waiting)
}

/// Whether a move leads to the place.
fn is_target(place: Location, waiting: &[Move]) -> bool
    ensures { result ≡ list_any (λ n. is_same (target n) (place_of place)) waiting.now }
{
    waiting.iter().any(|n| is_same(n.to, place))
}

/// Whether a move comes from the place.
fn is_source(place: Location, waiting: &[Move]) -> bool
    ensures { result ≡ list_any (λ n. is_same (source n) (place_of place)) waiting.now }
{
    waiting.iter().any(|n| is_same(n.from, place))
}

/// Whether the first move comes from where the second leads to, or from no part of that.
fn is_whole(n: Move, m: Move) -> bool
    ensures { result ≡ is_whole m n }
{
    is_same(n.from, m.to) || !overlap(n.from, m.to)
}

/// Whether no move comes from a part of where the move leads to.
fn are_whole(m: Move, waiting: &[Move]) -> bool
    ensures { result ≡ list_all (is_whole m) waiting.now }
{
    waiting.iter().all(|n| is_whole(*n, m))
}

/// Whether the move's two places may be exchanged: a move comes from where it leads to, one leads to where it comes
/// from, and none comes from a part of the former.
fn is_exchangeable(m: Move, waiting: &[Move]) -> bool
    ensures { result ≡ is_exchangeable m waiting.now }
{
    !is_same(m.from, m.to)
        && is_target(m.from, waiting)
        && is_source(m.to, waiting)
        && are_whole(m, waiting)
}

/// Whether the move's word may go to scratch.
fn is_savable(m: Move) -> bool
    ensures { result ≡ is_savable m }
{
    is_general(m.from) && is_general(m.to)
}

/// Whether a move waits for a part of the place.
fn is_taken(place: Location, waiting: &[Move]) -> bool
    ensures { result ≡ is_taken (place_of place) waiting.now }
{
    waiting.iter().any(|n| overlap(n.from, place))
}

/// A word of scratch for which no move waits: ESI, EDI or the word of the frame at that offset from EBP.
fn free_scratch(waiting: &[Move], word: i32) -> Option<Location>
    ensures { MatchOption result (AreTaken (distance word) waiting.now)
        (λ scratch. IsScratch (distance word) Two (place_of scratch)
        × (is_taken (place_of scratch) waiting.now ≡ false)) }
{
    let (first, second, third) = (
        Location::Word(Reg32::Esi),
        Location::Word(Reg32::Edi),
        Location::Slot(word),
    );
    if !is_taken(first, waiting) {
        Some(first)
    } else if !is_taken(second, waiting) {
        Some(second)
    } else if !is_taken(third, waiting) {
        Some(third)
    } else {
        None
    }
}

/// The first move that is free.
fn free_move(waiting: &[Move]) -> Option<usize>
    ensures { result ≡ position (λ m. is_free m waiting.now) waiting.now }
{
    waiting.iter().position(|m| is_free(*m, waiting))
}

/// The first move whose places may be exchanged.
fn exchangeable_move(waiting: &[Move]) -> Option<usize>
    ensures { result ≡ position (λ m. is_exchangeable m waiting.now) waiting.now }
{
    waiting.iter().position(|m| is_exchangeable(*m, waiting))
}

/// The first move whose word may go to scratch.
fn savable_move(waiting: &[Move]) -> Option<usize>
    ensures { result ≡ position is_savable waiting.now }
{
    waiting.iter().position(|m| is_savable(*m))
}

/// The step that comes next, if a move waits: a copy where one is free, then an exchange, and scratch last. So only a
/// cycle in which words and bytes meet takes scratch.
pub fn next_step(waiting: &[Move], word: i32) -> Option<Step>
    requires { AreWaiting (distance word) waiting.now }
    ensures { IsNext (distance word) waiting.now result }
{
    if let Some(i) = free_move(waiting) {
        return Some(Step::Copy(i));
    }
    if let Some(i) = exchangeable_move(waiting) {
        return Some(Step::Swap(i));
    }
    match (savable_move(waiting), free_scratch(waiting, word)) {
        (Some(i), Some(scratch)) => Some(Step::Save(i, scratch)),
        _ => None,
    }
}
