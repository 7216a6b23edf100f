//! The instructions that move variables from a point to one that follows it.

ghost use Rattle.std.specs.Prelude.{ℕ, ◌≡◌, ◌==◌, List};
ghost use Rattle.std.specs.List.{list_any};
ghost use Rattle.flow_graph.specs.Graphs.{IsIn};
ghost use Rattle.ia32_select.specs.EdgeMoves.{AreAllMoves, AreBetween, AreMovesOf, IsEdge, IsItsMove};
ghost use Rattle.ia32_select.specs.EdgeMoves.{IsMoveOf, Minds};

use crate::places::location_if_any;
use arrayvec::ArrayVec;
use flow_graph::Graph;
use ia32_insn::Insn;
use parallel_copies::{Move, is_busy, repair};
use puzzle_board::PointMap;

/// A point of a graph and one that follows it, and where variables are.
#[derive(Drop)]
pub struct Edge<'a> {
    pub graph: &'a Graph,
    pub map: &'a PointMap,
    pub point: u32,
    pub next: u32,
}

/// The offset from EBP of the word of scratch.
const SCRATCH: i32 = -16;

/// The move of a variable to where it is wanted next, unless it stays.
fn move_of(edge: &Edge<'_>, variable: u32) -> Option<Move>
    requires { IsEdge edge.now }
    ensures { IsItsMove edge.now.graph.now edge.now.map.now edge.now.point edge.now.next variable result }
{
    edge.graph.is_flow();
    match location_if_any(edge.map.before(edge.next, variable)) {
        Some(to) => match location_if_any(edge.map.after(edge.point, variable)) {
            Some(from) => {
                let width = edge.graph.width(variable);
                let m = Move { from, to, width };
                if is_busy(m) { Some(m) } else { None }
            }
            None => None,
        },
        None => None,
    }
}

/// Whether a variable is among these.
fn is_listed(variables: &[u32], variable: u32) -> bool
    ensures { result ≡ list_any (λ v. v == variable) variables.now }
{
    variables.iter().any(|v| *v == variable)
}

/// Puts a variable and its move last.
fn push_move(
    edge: &Edge<'_>,
    variable: u32,
    m: Move,
    variables: &mut ArrayVec<u32, 16>,
    moves: &mut ArrayVec<Move, 16>,
)
    requires is_edge { IsEdge edge.now }
    requires so_far { AreMovesOf edge.now.graph.now edge.now.map.now edge.now.point edge.now.next
        variables.old.items moves.old.items }
    requires its { IsMoveOf edge.now.graph.now edge.now.map.now edge.now.point edge.now.next variable m }
    requires other { ¬ IsIn variable variables.old.items }
    ensures so_far { AreMovesOf edge.now.graph.now edge.now.map.now edge.now.point edge.now.next
        variables.new.items moves.new.items }
    ensures minds { Minds edge.now.map.now edge.now.point edge.now.next variable
        variables.old.items variables.new.items }
{
    edge.graph.is_flow();
    variables.push(variable);
    moves.push(m);
}

/// Adds the move of a variable, unless it stays or moves already.
fn add_move(
    edge: &Edge<'_>,
    variable: u32,
    variables: &mut ArrayVec<u32, 16>,
    moves: &mut ArrayVec<Move, 16>,
)
    requires is_edge { IsEdge edge.now }
    requires so_far { AreMovesOf edge.now.graph.now edge.now.map.now edge.now.point edge.now.next
        variables.old.items moves.old.items }
    ensures so_far { AreMovesOf edge.now.graph.now edge.now.map.now edge.now.point edge.now.next
        variables.new.items moves.new.items }
    ensures minds { Minds edge.now.map.now edge.now.point edge.now.next variable
        variables.old.items variables.new.items }
{
    if !is_listed(variables.as_slice(), variable) {
        match move_of(edge, variable) {
            Some(m) => push_move(edge, variable, m, variables, moves),
            None => {}
        }
    }
}

/// The moves of all variables that don't stay where they are.
fn moves_on(edge: &Edge<'_>) -> ArrayVec<Move, 16>
    requires { IsEdge edge.now }
    ensures { (vs : List ℕ)
        × AreAllMoves edge.now.graph.now edge.now.map.now edge.now.point edge.now.next vs result.items }
{
    edge.graph.is_flow();
    let mut variables = ArrayVec::new();
    let mut moves = ArrayVec::new();
    for entry in edge.map.entries_before(edge.next) {
        add_move(edge, entry.0, &mut variables, &mut moves);
    }
    moves
}

/// The instructions that bring each variable from its place after the point to its place before the next one.
pub(crate) fn insns_on(edge: &Edge<'_>) -> ArrayVec<Insn, 48>
    requires { IsEdge edge.now }
    ensures { AreBetween edge.now.graph.now edge.now.map.now edge.now.point edge.now.next result.items }
{
    edge.graph.is_flow();
    let moves = moves_on(edge);
    repair(moves.as_slice(), SCRATCH)
}
