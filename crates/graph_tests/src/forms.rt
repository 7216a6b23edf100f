//! Names in the elementary form of a small graph, by hand.

ghost use Rattle.allocator.specs.SplitForms.{FixedOperandsDie, placed_count};
ghost use Rattle.std.specs.Prelude.{◌<◌};

use crate::building::{add_var, append, empty_graph};
use crate::expected::expect;
use allocator::split;
use flow_graph::{Graph, Op};
use flow_liveness::live;
use std::alloc::Global;
use std::process::Abort;

/// The names of variable 0 before and after points 0 to 2 are these.
fn expect_names(
    rt: &impl Abort,
    alloc: Global,
    graph: &Graph,
    wanted: [(Option<u64>, Option<u64>); 3],
)
    requires dies { FixedOperandsDie graph.now }
    requires few { placed_count graph.now < 2147483648 }
{
    let sets = live(alloc, graph).expect(rt, "live sets");
    let form = split(alloc, graph, &sets).expect(rt, "a form");
    expect(rt, &form.graph().points(), &graph.points(), "points");
    let names = [
        (form.name_before(0, 0), form.name_after(0, 0)),
        (form.name_before(1, 0), form.name_after(1, 0)),
        (form.name_before(2, 0), form.name_after(2, 0)),
    ];
    expect(rt, &names, &wanted, "names");
}

/// A variable that is defined at one point and read at the next has a name after the one and another before the other.
#[test]
fn names(rt: HostRuntime) {
    let mut graph = empty_graph(&rt, rt.alloc());
    add_var(&rt, &mut graph);
    append(&rt, &mut graph, 0, Op::Const(0, 5));
    append(&rt, &mut graph, 0, Op::Return(Some(0)));
    let wanted = [(None, Some(1)), (Some(8589934592), None), (None, None)];
    expect_names(&rt, rt.alloc(), &graph, wanted);
}
