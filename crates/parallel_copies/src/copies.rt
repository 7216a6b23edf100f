//! Moves that are made all at once.

ghost use Rattle.std.specs.Prelude.{◌≡◌, ◌≤◌, filter, length};
ghost use Rattle.std.specs.List.{AllByRecursion};
ghost use Rattle.ia32_insn.specs.Spelling.{HasSpelling};
ghost use Rattle.ia32_rows.specs.Effects.{IsStraight};
ghost use Rattle.ia32_emit.specs.Locations.{distance};
ghost use Rattle.parallel_copies.specs.Copies.{AreMoves, CopyAtOnce};
ghost use Rattle.parallel_copies.specs.Steps.{is_busy};

use crate::choice::next_step;
use crate::moves::Move;
use crate::overlap::is_same;
use crate::steps::advance;
use arrayvec::ArrayVec;
use ia32_emit::Location;
use ia32_insn::Insn;

/// Whether a move changes something: its places aren't one.
pub fn is_busy(m: Move) -> bool
    ensures { result ≡ is_busy m }
{
    match (m.from, m.to) {
        (Location::Slot(_), Location::Slot(_)) => false,
        _ => !is_same(m.from, m.to),
    }
}

/// The moves that change something.
fn busy_moves(moves: &[Move]) -> ArrayVec<Move, 16>
    requires { length (filter is_busy moves.now) ≤ 16 }
    ensures { result.items ≡ filter is_busy moves.now }
{
    let mut waiting = ArrayVec::new();
    for m in moves {
        if is_busy(*m) {
            waiting.push(*m);
        }
    }
    waiting
}

/// Instructions that make the moves all at once, with ESI, EDI and the word at that offset from EBP as scratch. No
/// memory is taken.
pub fn repair(moves: &[Move], word: i32) -> ArrayVec<Insn, 48>
    requires { AreMoves (distance word) moves.now }
    ensures copies { CopyAtOnce moves.now (distance word) result.items }
    ensures few { length result.items ≤ 20 }
    ensures straight { AllByRecursion IsStraight result.items }
    ensures spelled { AllByRecursion HasSpelling result.items }
{
    let mut waiting = busy_moves(moves);
    let mut out = ArrayVec::new();
    while let Some(step) = next_step(waiting.as_slice(), word) {
        advance(step, &mut waiting, word, &mut out);
    }
    out
}
