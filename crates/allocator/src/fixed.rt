//! Which registers an op fixes.

ghost use Rattle.std.specs.Prelude.{◌≡◌, option_map};
ghost use Rattle.allocator.specs.PointBoards as boards;
ghost use Rattle.allocator.specs.PointPuzzles.{pair_of};

use flow_graph::Op;
use puzzle_board::{Columns, Spot};

/// The operand that has to stand somewhere before the op, and where: the count of a shift in CL, the dividend of a
/// division in EAX.
pub fn fixed_use(op: &Op) -> Option<(u32, Spot)>
    ensures { result ≡ option_map pair_of (boards.fixed_use op.now) }
{
    let cl = Spot {
        area: 2,
        columns: Columns::Low,
    };
    let eax = Spot {
        area: 0,
        columns: Columns::All,
    };
    match op {
        Op::Shl(_, _, count) | Op::Sar(_, _, count) | Op::Shr(_, _, count) => Some((*count, cl)),
        Op::Div(_, dividend, _) | Op::Rem(_, dividend, _) => Some((*dividend, eax)),
        Op::Udiv(_, dividend, _) | Op::Urem(_, dividend, _) => Some((*dividend, eax)),
        Op::Call(_, _, _) | Op::Putchar(_, _) | Op::Getchar(_) | Op::Exit(_) => None,
        Op::Const(_, _) | Op::Copy(_, _) | Op::Wide(_, _) | Op::Zero(_, _) => None,
        Op::Low(_, _) | Op::Low16(_, _) | Op::Neg(_, _) | Op::Not(_, _) => None,
        Op::Add(_, _, _) | Op::Sub(_, _, _) | Op::Mul(_, _, _) => None,
        Op::And(_, _, _) | Op::Or(_, _, _) | Op::Xor(_, _, _) => None,
        Op::Set(_, _, _, _) | Op::Setu(_, _, _, _) => None,
        Op::Frame(_, _) | Op::Static(_, _) | Op::Load(_, _, _, _) => None,
        Op::Store(_, _, _, _) | Op::Get(_, _, _) | Op::Put(_, _, _) => None,
        Op::Clear(_) | Op::Param(_, _) | Op::Same(_, _) => None,
        Op::Mark(_) | Op::Turn | Op::Jump(_) => None,
        Op::Branch(_, _, _, _, _) | Op::Branchu(_, _, _, _, _) | Op::Return(_) => None,
    }
}

/// The result that has to stand somewhere after the op, and where: the quotient of a division and what a call gives in
/// EAX, the remainder in EDX.
pub fn fixed_result(op: &Op) -> Option<(u32, Spot)>
    ensures { result ≡ option_map pair_of (boards.fixed_result op.now) }
{
    let eax = Spot {
        area: 0,
        columns: Columns::All,
    };
    let edx = Spot {
        area: 3,
        columns: Columns::All,
    };
    match op {
        Op::Div(quotient, _, _) | Op::Udiv(quotient, _, _) => Some((*quotient, eax)),
        Op::Rem(remainder, _, _) | Op::Urem(remainder, _, _) => Some((*remainder, edx)),
        Op::Call(Some(to), _, _) | Op::Putchar(to, _) | Op::Getchar(to) => Some((*to, eax)),
        Op::Call(None, _, _) | Op::Exit(_) => None,
        Op::Shl(_, _, _) | Op::Sar(_, _, _) | Op::Shr(_, _, _) => None,
        Op::Const(_, _) | Op::Copy(_, _) | Op::Wide(_, _) | Op::Zero(_, _) => None,
        Op::Low(_, _) | Op::Low16(_, _) | Op::Neg(_, _) | Op::Not(_, _) => None,
        Op::Add(_, _, _) | Op::Sub(_, _, _) | Op::Mul(_, _, _) => None,
        Op::And(_, _, _) | Op::Or(_, _, _) | Op::Xor(_, _, _) => None,
        Op::Set(_, _, _, _) | Op::Setu(_, _, _, _) => None,
        Op::Frame(_, _) | Op::Static(_, _) | Op::Load(_, _, _, _) => None,
        Op::Store(_, _, _, _) | Op::Get(_, _, _) | Op::Put(_, _, _) => None,
        Op::Clear(_) | Op::Param(_, _) | Op::Same(_, _) => None,
        Op::Mark(_) | Op::Turn | Op::Jump(_) => None,
        Op::Branch(_, _, _, _, _) | Op::Branchu(_, _, _, _, _) | Op::Return(_) => None,
    }
}
