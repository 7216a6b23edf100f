//! Which registers an op takes.

ghost use Rattle.std.specs.Prelude.{◌≡◌};
ghost use Rattle.allocator.specs.PointBoards as boards;

use flow_graph::Op;
use puzzle_board::{Area, Column};

/// The areas of an op: EAX, EBX, ECX and EDX, with the cells that it neither fixes nor takes. A shift by a variable has
/// its count in CL (Intel manual, volume 2, "SAL/SAR/SHL/SHR"), a division all of EAX and EDX ("IDIV"), and over a call
/// only EBX is kept (System V ABI, Intel386 supplement, section 3).
pub fn areas_of(op: &Op) -> [Area; 4]
    ensures { result ≡ boards.areas_of op.now }
{
    let free = Area {
        low: Column::Both,
        high: Column::Both,
    };
    let taken = Area {
        low: Column::Neither,
        high: Column::Neither,
    };
    let before = Area {
        low: Column::Upper,
        high: Column::Upper,
    };
    let count = Area {
        low: Column::Lower,
        high: Column::Both,
    };
    match op {
        Op::Shl(_, _, _) | Op::Sar(_, _, _) | Op::Shr(_, _, _) => [free, free, count, free],
        Op::Div(_, _, _) | Op::Rem(_, _, _) => [taken, free, free, taken],
        Op::Udiv(_, _, _) | Op::Urem(_, _, _) => [taken, free, free, taken],
        Op::Call(_, _, _) | Op::Putchar(_, _) => [before, free, before, before],
        Op::Getchar(_) | Op::Exit(_) => [before, free, before, before],
        Op::Const(_, _) | Op::Copy(_, _) | Op::Wide(_, _) => [free, free, free, free],
        Op::Zero(_, _) | Op::Low(_, _) | Op::Low16(_, _) => [free, free, free, free],
        Op::Neg(_, _) | Op::Not(_, _) | Op::Add(_, _, _) => [free, free, free, free],
        Op::Sub(_, _, _) | Op::Mul(_, _, _) | Op::And(_, _, _) => [free, free, free, free],
        Op::Or(_, _, _) | Op::Xor(_, _, _) => [free, free, free, free],
        Op::Set(_, _, _, _) | Op::Setu(_, _, _, _) => [free, free, free, free],
        Op::Frame(_, _) | Op::Static(_, _) | Op::Load(_, _, _, _) => [free, free, free, free],
        Op::Store(_, _, _, _) | Op::Get(_, _, _) | Op::Put(_, _, _) => [free, free, free, free],
        Op::Clear(_) | Op::Param(_, _) | Op::Same(_, _) => [free, free, free, free],
        Op::Mark(_) | Op::Turn | Op::Jump(_) => [free, free, free, free],
        Op::Branch(_, _, _, _, _) | Op::Branchu(_, _, _, _, _) => [free, free, free, free],
        Op::Return(_) => [free, free, free, free],
    }
}
