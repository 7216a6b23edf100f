//! The points that follow a point.

ghost use Rattle.std.specs.Prelude.{◌≡◌, slice_get};
ghost use Rattle.flow_graph.specs.Graphs.{IsPlaced, points_of};
ghost use Rattle.ia32_select.specs.EdgeMoves.{AreNext};
ghost use Rattle.ia32_select.specs.Exits as exits;

use flow_graph::{Graph, Op};

/// Where an op leads.
#[derive(Clone, Copy)]
pub enum Exit {
    /// To the next point of its block.
    Next,
    /// To the first point of a block.
    Block(u32),
    /// To the first point of one of two blocks.
    Either(u32, u32),
    /// Nowhere: the call or the program ends.
    Nowhere,
}

/// Where an op leads.
fn exit_of(op: &Op) -> Exit
    ensures { result ≡ exits.exit_of op.now }
{
    match op {
        Op::Const(_, _) | Op::Copy(_, _) | Op::Wide(_, _) | Op::Zero(_, _) => Exit::Next,
        Op::Low(_, _) | Op::Low16(_, _) => Exit::Next,
        Op::Neg(_, _) | Op::Not(_, _) | Op::Frame(_, _) | Op::Static(_, _) => Exit::Next,
        Op::Add(_, _, _) | Op::Sub(_, _, _) | Op::Mul(_, _, _) => Exit::Next,
        Op::And(_, _, _) | Op::Or(_, _, _) | Op::Xor(_, _, _) => Exit::Next,
        Op::Shl(_, _, _) | Op::Sar(_, _, _) | Op::Shr(_, _, _) => Exit::Next,
        Op::Div(_, _, _) | Op::Rem(_, _, _) | Op::Udiv(_, _, _) | Op::Urem(_, _, _) => Exit::Next,
        Op::Set(_, _, _, _) | Op::Setu(_, _, _, _) => Exit::Next,
        Op::Load(_, _, _, _) | Op::Store(_, _, _, _) => Exit::Next,
        Op::Get(_, _, _) | Op::Put(_, _, _) | Op::Clear(_) | Op::Param(_, _) => Exit::Next,
        Op::Call(_, _, _) | Op::Putchar(_, _) | Op::Getchar(_) => Exit::Next,
        Op::Same(_, _) | Op::Mark(_) | Op::Turn => Exit::Next,
        Op::Jump(block) => Exit::Block(*block),
        Op::Branch(_, _, _, first, second) => Exit::Either(*first, *second),
        Op::Branchu(_, _, _, first, second) => Exit::Either(*first, *second),
        Op::Exit(_) | Op::Return(_) => Exit::Nowhere,
    }
}

/// The first point of a block, if there is one.
pub(crate) fn first_point(graph: &Graph, block: u32) -> Option<u32>
    ensures { result ≡ slice_get (points_of graph.now block) 0 }
{
    if block < graph.blocks() {
        graph.first(block)
    } else {
        None
    }
}

/// The points that follow a point: two at most.
pub(crate) fn next_points(graph: &Graph, point: u32) -> (Option<u32>, Option<u32>)
    requires { IsPlaced graph.now point }
    ensures { AreNext graph.now point result }
{
    graph.is_flow();
    match exit_of(graph.op(point)) {
        Exit::Next => (graph.next(point), None),
        Exit::Block(block) => (first_point(graph, block), None),
        Exit::Either(first, second) => (first_point(graph, first), first_point(graph, second)),
        Exit::Nowhere => (None, None),
    }
}
