ghost use Rattle.std.specs.Prelude.{◌≡◌};
ghost use Rattle.flow_liveness.specs.Ways as ways;

use flow_graph::Op;

/// Where an op leads.
#[derive(Clone, Copy)]
pub enum Way {
    /// To the next point of its block.
    Next,
    /// To the first point of a block.
    Block(u32),
    /// To the first point of one of two blocks.
    Either(u32, u32),
    /// Nowhere: the call or the program ends.
    Nowhere,
}

/// Where an op leads.
pub fn way_of(op: &Op) -> Way
    ensures { result ≡ ways.way_of op.now }
{
    match op {
        Op::Const(_, _) | Op::Copy(_, _) | Op::Wide(_, _) | Op::Zero(_, _) => Way::Next,
        Op::Low(_, _) | Op::Low16(_, _) => Way::Next,
        Op::Neg(_, _) | Op::Not(_, _) | Op::Frame(_, _) | Op::Static(_, _) => Way::Next,
        Op::Add(_, _, _) | Op::Sub(_, _, _) | Op::Mul(_, _, _) => Way::Next,
        Op::And(_, _, _) | Op::Or(_, _, _) | Op::Xor(_, _, _) => Way::Next,
        Op::Shl(_, _, _) | Op::Sar(_, _, _) | Op::Shr(_, _, _) => Way::Next,
        Op::Div(_, _, _) | Op::Rem(_, _, _) | Op::Udiv(_, _, _) | Op::Urem(_, _, _) => Way::Next,
        Op::Set(_, _, _, _) | Op::Setu(_, _, _, _) => Way::Next,
        Op::Load(_, _, _, _) | Op::Store(_, _, _, _) => Way::Next,
        Op::Get(_, _, _) | Op::Put(_, _, _) | Op::Clear(_) | Op::Param(_, _) => Way::Next,
        Op::Call(_, _, _) | Op::Putchar(_, _) | Op::Getchar(_) => Way::Next,
        Op::Same(_, _) | Op::Mark(_) | Op::Turn => Way::Next,
        Op::Jump(block) => Way::Block(*block),
        Op::Branch(_, _, _, first, second) => Way::Either(*first, *second),
        Op::Branchu(_, _, _, first, second) => Way::Either(*first, *second),
        Op::Exit(_) | Op::Return(_) => Way::Nowhere,
    }
}
