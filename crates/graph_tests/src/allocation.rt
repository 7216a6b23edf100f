//! The map of a small graph, the board of one of its points, and the areas of ops without sign, by hand.

ghost use Rattle.allocator.specs.PointMaps.{bytes_of_arrays};
ghost use Rattle.allocator.specs.SplitForms.{FixedOperandsDie, placed_count};
ghost use Rattle.flow_graph.specs.Graphs.{IsPlaced};
ghost use Rattle.std.specs.Prelude.{◌≡◌, ◌<◌, ◌≤◌, ◌+◌, ◌*◌, length};

use crate::building::{add_var, append, empty_graph};
use crate::expected::expect;
use allocator::{Elementary, allocate, areas_of, board_of, split};
use flow_graph::{Graph, Op, Order};
use flow_liveness::{live, next_use};
use pcc_base::Steps;
use puzzle_board::{Area, Column, PointMap};
use std::alloc::Global;
use std::marker::Brand;
use std::process::Abort;
use std::sync::ledger::{Blank, Ledger};

/// The board of point 1 has four areas and one piece.
fn expect_board<L: Ledger>(rt: &impl Abort, alloc: Global, form: &Elementary, blank: Blank)
    requires placed { IsPlaced form.now.graph 1 }
    requires few { length form.now.graph.widths < 2147483648 }
    requires name { blank.name ≡ L.name }
    requires parts { blank.parts ≡ L.parts }
    requires one { L.parts ≡ 1 }
{
    let board = board_of::<L>(alloc, form, 1).expect(rt, "a board");
    let mut steps = Steps::<L>::new(blank);
    let counts = (board.areas(&mut steps), board.pieces(&mut steps));
    expect(rt, &counts, &(4, 1), "areas and pieces");
}

/// Variable 0 stands in a register from point 0 to point 1, nothing is spilled, and the frame has the four words that
/// each function keeps.
fn expect_register(rt: &impl Abort, map: &PointMap)
    requires points { 2 ≤ length map.now.before }
    requires one { 1 ≤ length map.now.slots }
{
    let stands = (
        map.after(0, 0).is_some(),
        map.before(1, 0) == map.after(0, 0),
    );
    expect(rt, &stands, &(true, true), "a register");
    let spilled = (map.spilled(0).len(), map.spilled(1).len(), map.slot(0));
    expect(rt, &spilled, &(0, 0, None), "nothing is spilled");
    expect(rt, &map.frame(), &16, "the frame");
}

/// The map is as `expect_register` says, and the board of point 1 has four areas and one piece.
fn expect_places(rt: &impl Abort, alloc: Global, graph: &Graph)
    requires dies { FixedOperandsDie graph.now }
    requires few { placed_count graph.now < 2147483648 }
    requires room { 16 + 4 * length graph.now.widths + bytes_of_arrays graph.now.arrays < 2147483648 }
    requires points { 2 ≤ length graph.now.ops }
    requires one { 1 ≤ length graph.now.widths }
    requires placed { IsPlaced graph.now 1 }
{
    let sets = live(alloc, graph).expect(rt, "live sets");
    let form = split(alloc, graph, &sets).expect(rt, "a form");
    let distances = next_use(alloc, graph).expect(rt, "distances");
    let map = allocate(alloc, &form, &distances).expect(rt, "a map");
    expect_register(rt, &map);
    expect_board::<Brand>(rt, alloc, &form, Blank::new(1));
}

/// A variable that is defined at one point and read at the next.
#[test]
fn small_map(rt: HostRuntime) {
    let mut graph = empty_graph(&rt, rt.alloc());
    add_var(&rt, &mut graph);
    append(&rt, &mut graph, 0, Op::Const(0, 5));
    append(&rt, &mut graph, 0, Op::Return(Some(0)));
    expect_places(&rt, rt.alloc(), &graph);
}

/// The letter of a column: which of its rows are free.
fn letter(column: Column) -> u8 {
    match column {
        Column::Both => b'B',
        Column::Upper => b'U',
        Column::Lower => b'L',
        Column::Neither => b'N',
    }
}

/// The letters of the low and the high column of EAX, EBX, ECX and EDX.
fn letters(areas: [Area; 4]) -> [u8; 8] {
    let [eax, ebx, ecx, edx] = areas;
    [
        letter(eax.low),
        letter(eax.high),
        letter(ebx.low),
        letter(ebx.high),
        letter(ecx.low),
        letter(ecx.high),
        letter(edx.low),
        letter(edx.high),
    ]
}

/// The count of a shift stands in CL before the op, a division takes all of EAX and EDX, and the others take nothing.
#[test]
fn areas_without_sign(rt: HostRuntime) {
    let rows = [
        (Op::Zero(0, 1), *b"BBBBBBBB"),
        (Op::Shr(0, 1, 2), *b"BBBBLBBB"),
        (Op::Udiv(0, 1, 2), *b"NNBBBBNN"),
        (Op::Urem(0, 1, 2), *b"NNBBBBNN"),
        (Op::Setu(Order::Lt, 0, 1, 2), *b"BBBBBBBB"),
        (Op::Branchu(Order::Ge, 0, 1, 0, 1), *b"BBBBBBBB"),
    ];
    for (row, (op, want)) in rows.iter().enumerate() {
        expect(&rt, &letters(areas_of(op)), want, row);
    }
}
