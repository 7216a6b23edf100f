//! Live variables and distances at the points of small graphs, by hand.

use crate::building::{add_block, add_byte, add_var, append, empty_graph};
use crate::expected::expect;
use flow_graph::{Comparison, Graph, Op, Order};
use flow_liveness::{live, next_use};
use std::alloc::Global;
use std::process::Abort;

/// The variables before and after each point of a graph are these.
fn expect_live(rt: &impl Abort, alloc: Global, graph: &Graph, rows: &[(&[u32], &[u32])]) {
    let sets = live(alloc, graph).expect(rt, "live sets");
    assert_eq!(rt; graph.points() as usize, rows.len());
    for point in 0..graph.points() {
        let found = (sets.before(point), sets.after(point));
        expect(rt, &found, &rows[point as usize], point);
    }
}

/// The distances in a graph are these: point, variable, distance.
fn expect_distances(
    rt: &impl Abort,
    alloc: Global,
    graph: &Graph,
    rows: &[(u32, u32, Option<u32>)],
) {
    let distances = next_use(alloc, graph).expect(rt, "distances");
    for row in rows {
        let (point, var, _) = *row;
        expect(
            rt,
            &(point, var, distances.at(point, var)),
            row,
            "a distance",
        );
    }
}

/// The variables before and after each point of the block with a sum.
const BLOCK_LIVE: [(&[u32], &[u32]); 5] = [
    (&[], &[0]),
    (&[0], &[0, 1]),
    (&[0, 1], &[0, 2]),
    (&[0, 2], &[0]),
    (&[0], &[]),
];

/// Distances in the block with a sum.
const BLOCK_DISTANCES: [(u32, u32, Option<u32>); 7] = [
    (0, 0, Some(2)),
    (0, 1, None),
    (1, 1, Some(1)),
    (3, 2, Some(0)),
    (3, 0, Some(1)),
    (4, 2, None),
    (5, 0, None),
];

/// A block with a sum, and no points past its own.
#[test]
fn one_block(rt: HostRuntime) {
    let mut graph = empty_graph(&rt, rt.alloc());
    add_var(&rt, &mut graph);
    add_var(&rt, &mut graph);
    append(&rt, &mut graph, 0, Op::Const(0, 5));
    append(&rt, &mut graph, 0, Op::Const(1, 6));
    add_var(&rt, &mut graph);
    add_var(&rt, &mut graph);
    append(&rt, &mut graph, 0, Op::Add(2, 0, 1));
    append(&rt, &mut graph, 0, Op::Putchar(3, 2));
    append(&rt, &mut graph, 0, Op::Return(Some(0)));
    expect_live(&rt, rt.alloc(), &graph, &BLOCK_LIVE);
    expect_distances(&rt, rt.alloc(), &graph, &BLOCK_DISTANCES);
}

/// The variables before and after each point of the loop.
const LOOP_LIVE: [(&[u32], &[u32]); 7] = [
    (&[], &[0]),
    (&[0], &[0, 1]),
    (&[0, 1], &[0, 1]),
    (&[0, 1], &[1, 2]),
    (&[1, 2], &[0, 1, 2]),
    (&[0, 1, 2], &[0, 1, 2]),
    (&[2], &[]),
];

/// Distances in the loop.
const LOOP_DISTANCES: [(u32, u32, Option<u32>); 11] = [
    (0, 0, Some(3)),
    (0, 1, None),
    (1, 0, Some(2)),
    (1, 1, Some(3)),
    (1, 2, None),
    (3, 0, Some(0)),
    (3, 1, Some(1)),
    (3, 2, Some(1)),
    (4, 0, Some(2)),
    (5, 0, Some(1)),
    (6, 0, None),
];

/// A loop: its body uses what the body before it made.
#[test]
fn around_a_loop(rt: HostRuntime) {
    let mut graph = empty_graph(&rt, rt.alloc());
    add_var(&rt, &mut graph);
    add_var(&rt, &mut graph);
    append(&rt, &mut graph, 0, Op::Const(0, 0));
    append(&rt, &mut graph, 0, Op::Const(1, 1));
    add_var(&rt, &mut graph);
    add_block(&rt, &mut graph);
    add_block(&rt, &mut graph);
    append(&rt, &mut graph, 0, Op::Jump(1));
    append(&rt, &mut graph, 1, Op::Copy(2, 0));
    append(&rt, &mut graph, 1, Op::Add(0, 2, 1));
    append(&rt, &mut graph, 1, Op::Branch(Comparison::Lt, 2, 1, 1, 2));
    append(&rt, &mut graph, 2, Op::Return(Some(2)));
    expect_live(&rt, rt.alloc(), &graph, &LOOP_LIVE);
    expect_distances(&rt, rt.alloc(), &graph, &LOOP_DISTANCES);
}

/// The variables before and after each point of the loop of ops without sign.
const UNSIGNED_LIVE: [(&[u32], &[u32]); 9] = [
    (&[], &[0]),
    (&[0], &[0, 1]),
    (&[0, 1], &[0, 1, 2]),
    (&[0, 1, 2], &[0, 2, 3]),
    (&[0, 2, 3], &[0, 2, 3]),
    (&[0, 2, 3], &[0, 2]),
    (&[0, 2], &[0, 2, 3]),
    (&[0, 2, 3], &[0]),
    (&[0], &[]),
];

/// Distances in the loop of ops without sign.
const UNSIGNED_DISTANCES: [(u32, u32, Option<u32>); 7] = [
    (0, 0, Some(2)),
    (1, 1, Some(1)),
    (2, 2, Some(2)),
    (3, 3, Some(1)),
    (6, 3, Some(1)),
    (7, 0, Some(1)),
    (7, 1, None),
];

/// Each op without sign, in a block that leads back to itself.
#[test]
fn without_sign(rt: HostRuntime) {
    let mut graph = empty_graph(&rt, rt.alloc());
    add_var(&rt, &mut graph);
    add_byte(&rt, &mut graph);
    add_var(&rt, &mut graph);
    add_var(&rt, &mut graph);
    add_block(&rt, &mut graph);
    append(&rt, &mut graph, 0, Op::Const(0, -7));
    append(&rt, &mut graph, 0, Op::Const(1, 3));
    append(&rt, &mut graph, 0, Op::Shr(2, 0, 1));
    append(&rt, &mut graph, 0, Op::Zero(3, 1));
    append(&rt, &mut graph, 0, Op::Udiv(2, 2, 3));
    append(&rt, &mut graph, 0, Op::Urem(0, 0, 3));
    append(&rt, &mut graph, 0, Op::Setu(Order::Lt, 3, 0, 2));
    append(&rt, &mut graph, 0, Op::Branchu(Order::Ge, 3, 2, 0, 1));
    append(&rt, &mut graph, 1, Op::Return(Some(0)));
    expect_live(&rt, rt.alloc(), &graph, &UNSIGNED_LIVE);
    expect_distances(&rt, rt.alloc(), &graph, &UNSIGNED_DISTANCES);
}
