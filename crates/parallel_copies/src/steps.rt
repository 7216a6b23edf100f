//! The steps of the copies: each takes at most one instruction, and leaves fewer moves or words that wait.

ghost use Rattle.std.specs.Prelude.{◌≡◌, ◌<◌, Some, length, map, slice_get};
ghost use Rattle.arrayvec.specs.ArrayVec.{array_vec_len};
ghost use Rattle.ia32_emit.specs.Locations.{distance, place_of};
ghost use Rattle.parallel_copies.specs.declared.choice.Step.TheVariants as step;
ghost use Rattle.parallel_copies.specs.Steps.{Advances, AreWaiting, IsNext, copy_insn, redirected, swap_insn};

use crate::choice::Step;
use crate::moves::Move;
use crate::overlap::is_same;
use arrayvec::ArrayVec;
use ia32_emit::{Location, at_offset};
use ia32_insn::{Insn, Rm8, Rm32};

/// The instruction that copies from a place to another (Intel manual, volume 2, MOV). There is none for two slots, or
/// for a word and a byte.
fn copy_insn(from: Location, to: Location) -> Insn
    ensures { result ≡ copy_insn (place_of from) (place_of to) }
{
    match (from, to) {
        (Location::Word(r), Location::Word(d)) => Insn::Mov(Rm32::Reg(d), r),
        (Location::Word(r), Location::Slot(k)) => Insn::Mov(Rm32::Mem(at_offset(k)), r),
        (Location::Byte(r), Location::Byte(d)) => Insn::Mov8(Rm8::Reg(d), r),
        (Location::Byte(r), Location::Slot(k)) => Insn::Mov8(Rm8::Mem(at_offset(k)), r),
        (Location::Slot(k), Location::Word(d)) => Insn::MovLoad(d, at_offset(k)),
        (Location::Slot(k), Location::Byte(d)) => Insn::Mov8Load(d, at_offset(k)),
        (Location::Word(_), Location::Byte(_)) => Insn::Nop,
        (Location::Byte(_), Location::Word(_)) => Insn::Nop,
        (Location::Slot(_), Location::Slot(_)) => Insn::Nop,
    }
}

/// The instruction that exchanges two registers or two bytes of registers (Intel manual, volume 2, XCHG). There is none
/// for other places.
fn swap_insn(first: Location, second: Location) -> Insn
    ensures { result ≡ swap_insn (place_of first) (place_of second) }
{
    match (first, second) {
        (Location::Word(r), Location::Word(d)) => Insn::Xchg(Rm32::Reg(d), r),
        (Location::Byte(r), Location::Byte(d)) => Insn::Xchg8(Rm8::Reg(d), r),
        (Location::Word(_), Location::Byte(_) | Location::Slot(_)) => Insn::Nop,
        (Location::Byte(_), Location::Word(_) | Location::Slot(_)) => Insn::Nop,
        (Location::Slot(_), _) => Insn::Nop,
    }
}

/// The move, from another place where it comes from this one.
fn redirected(m: Move, old: Location, new: Location) -> Move
    ensures { result ≡ redirected old new m }
{
    if is_same(m.from, old) {
        Move { from: new, ..m }
    } else {
        m
    }
}

/// What comes from one register comes from another place.
fn redirect(waiting: &mut [Move], old: Location, new: Location)
    ensures { waiting.new ≡ map (redirected old new) waiting.old }
{
    for m in waiting.iter_mut() {
        *m = redirected(*m, old, new);
    }
}

/// Makes a move. Where both its places are one there is nothing to do.
fn make_copy(i: usize, waiting: &mut ArrayVec<Move, 16>, word: i32, out: &mut ArrayVec<Insn, 48>)
    requires waiting { AreWaiting (distance word) waiting.old.items }
    requires next { IsNext (distance word) waiting.old.items (Some (step.Copy i)) }
    requires room { array_vec_len out.old < 48 }
    ensures { Advances (distance word) waiting.old.items waiting.new.items out.old.items out.new.items }
{
    let m = waiting.remove(i);
    if !is_same(m.from, m.to) {
        out.push(copy_insn(m.from, m.to));
    }
}

/// Exchanges the places of a move. What stood where it leads to then stands where it came from.
fn make_swap(i: usize, waiting: &mut ArrayVec<Move, 16>, word: i32, out: &mut ArrayVec<Insn, 48>)
    requires waiting { AreWaiting (distance word) waiting.old.items }
    requires next { IsNext (distance word) waiting.old.items (Some (step.Swap i)) }
    requires room { array_vec_len out.old < 48 }
    ensures { Advances (distance word) waiting.old.items waiting.new.items out.old.items out.new.items }
{
    let m = waiting.remove(i);
    redirect(waiting.as_mut_slice(), m.to, m.from);
    out.push(swap_insn(m.from, m.to));
}

/// The move at an index.
fn move_at(waiting: &[Move], i: usize) -> Move
    requires { i < length waiting.now }
    ensures { slice_get waiting.now i ≡ Some result }
{
    waiting[i]
}

/// Copies a word to scratch, from where it then comes.
fn make_save(
    i: usize,
    scratch: Location,
    waiting: &mut ArrayVec<Move, 16>,
    word: i32,
    out: &mut ArrayVec<Insn, 48>,
)
    requires waiting { AreWaiting (distance word) waiting.old.items }
    requires next { IsNext (distance word) waiting.old.items (Some (step.Save i scratch)) }
    requires room { array_vec_len out.old < 48 }
    ensures { Advances (distance word) waiting.old.items waiting.new.items out.old.items out.new.items }
{
    let m = move_at(waiting.as_slice(), i);
    redirect(waiting.as_mut_slice(), m.from, scratch);
    out.push(copy_insn(m.from, scratch));
}

/// Makes a step.
pub fn advance(
    step: Step,
    waiting: &mut ArrayVec<Move, 16>,
    word: i32,
    out: &mut ArrayVec<Insn, 48>,
)
    requires waiting { AreWaiting (distance word) waiting.old.items }
    requires next { IsNext (distance word) waiting.old.items (Some step) }
    requires room { array_vec_len out.old < 48 }
    ensures { Advances (distance word) waiting.old.items waiting.new.items out.old.items out.new.items }
{
    match step {
        Step::Copy(i) => make_copy(i, waiting, word, out),
        Step::Swap(i) => make_swap(i, waiting, word, out),
        Step::Save(i, scratch) => make_save(i, scratch, waiting, word, out),
    }
}
