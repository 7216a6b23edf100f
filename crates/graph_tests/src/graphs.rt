//! A small graph, built, read back and changed: the order of its points is that of the calls, by hand.

use crate::building::{add_var, append, empty_graph};
use crate::expected::expect;
use flow_graph::{LiveSets, Op, Words};

/// Two ops, read back.
#[test]
fn two_points(rt: HostRuntime) {
    let mut graph = empty_graph(&rt, rt.alloc());
    let number = add_var(&rt, &mut graph);
    let start = append(&rt, &mut graph, 0, Op::Const(number, 7));
    let end = append(&rt, &mut graph, 0, Op::Return(Some(number)));
    let points = graph.points_in(rt.alloc(), 0).expect(&rt, "the points");
    let found = (graph.first(0), graph.next(start), points.as_slice());
    let all: &[u32] = &[start, end];
    let wanted = (Some(start), Some(end), all);
    expect(&rt, &found, &wanted, "the first point, the next, and all");
}

/// A point that is put after another.
#[test]
fn point_between(rt: HostRuntime) {
    let mut graph = empty_graph(&rt, rt.alloc());
    let start = append(&rt, &mut graph, 0, Op::Turn);
    let next = graph.insert_after(start, Op::Mark(4)).ok();
    expect(&rt, &next, &Some(1), "the point after the first");
}

/// A point that is read and taken out: its number stays used.
#[test]
fn point_removed(rt: HostRuntime) {
    let mut graph = empty_graph(&rt, rt.alloc());
    let point = append(&rt, &mut graph, 0, Op::Mark(4));
    let is_mark = matches!(graph.op(point), Op::Mark(4));
    graph.remove(point);
    expect(
        &rt,
        &(is_mark, graph.points()),
        &(true, 1),
        "the op, and how many points",
    );
}

/// A graph with a call, copied: the call passes the same word.
#[test]
fn copied_graph(rt: HostRuntime) {
    let mut graph = empty_graph(&rt, rt.alloc());
    let argument = add_var(&rt, &mut graph);
    let words = [argument].to_vec(rt.alloc()).expect(&rt, "a word");
    let call = append(&rt, &mut graph, 0, Op::Call(None, 3, Words::new(words)));
    let copy = graph.copy(rt.alloc()).expect(&rt, "a copy");
    let op = copy.op(call);
    let found = [copy.first(0), op.use_at(0), op.use_at(1), op.defined()];
    let wanted = [Some(call), Some(argument), None, None];
    expect(
        &rt,
        &found,
        &wanted,
        "the first point, its two words, and its result",
    );
}

/// What is live at two points, and the same of a copy.
#[test]
fn live_at_two_points(rt: HostRuntime) {
    let mut sets = LiveSets::new(rt.alloc(), 2).expect(&rt, "live sets");
    sets.add_before(1, 3).expect(&rt, "a variable");
    sets.add_before(1, 5).expect(&rt, "a variable");
    sets.add_after(0, 4).expect(&rt, "a variable");
    let copy = sets.copy(rt.alloc()).expect(&rt, "a copy");
    let found = [
        sets.before(1),
        sets.after(0),
        sets.before(0),
        copy.before(1),
    ];
    let wanted: [&[u32]; 4] = [&[3, 5], &[4], &[], &[3, 5]];
    expect(
        &rt,
        &found,
        &wanted,
        "before 1, after 0, before 0, and before 1 of the copy",
    );
}
