//! The items of a function with two blocks, a frame array and a call, by hand.

ghost use Rattle.allocator.specs.PointMaps.{bytes_of_arrays};
ghost use Rattle.allocator.specs.SplitForms.{FixedOperandsDie, placed_count};
ghost use Rattle.flow_graph.specs.Graphs.{with_op, FitsOp, IsEnded};
ghost use Rattle.flow_graph.specs.Liveness.{BeginsWith};
ghost use Rattle.flow_graph.specs.Lives.{AreLive, at_point};
ghost use Rattle.flow_graph.specs.Sizes.{most_words};
ghost use Rattle.std.specs.Prelude.{◌≡◌, ◌<◌, ◌≤◌, ◌+◌, ◌*◌, [], length};

use crate::expected::expect;
use crate::rows::expect_printed;
use allocator::{allocate, split};
use flow_graph::{Comparison, Graph, LiveSets, Op, Words};
use flow_liveness::{live, next_use};
use ia32_insn::Item;
use ia32_select::select;
use pcc_base::{NoMemory, Width};
use std::alloc::Global;
use std::process::Abort;

/// Makes a point with this op at the end of a block.
fn append(rt: &impl Abort, graph: &mut Graph, block: u32, op: Op)
    requires room { length graph.old.ops < 4294967295 }
    requires in_range { block < length graph.old.blocks }
    requires not_ended { ¬ IsEnded graph.old block }
    requires fits { FitsOp graph.old op }
    ensures { graph.new ≡ with_op graph.old block op }
{
    graph.append(block, op).expect(rt, "a point");
}

/// Ends the test where a variable is listed.
fn expect_none(rt: &impl Abort, listed: &[u32])
    ensures { listed.now ≡ [] }
{
    match listed {
        [] => {}
        [_, ..] => panic!(rt; "a variable is live"),
    }
}

/// The items of a graph over the map that `allocate` makes of it; nothing is live before its first point.
fn items_of(alloc: Global, graph: &Graph, sets: &LiveSets) -> Result<Vec<Item>, NoMemory>
    requires live { AreLive graph.now sets.now }
    requires none { at_point sets.now.before 0 ≡ [] }
    requires first { BeginsWith graph.now 0 0 }
    requires within { 0 < length graph.now.ops }
    requires dies { FixedOperandsDie graph.now }
    requires few { placed_count graph.now < 2147483648 }
    requires room { 16 + 4 * length graph.now.widths + bytes_of_arrays graph.now.arrays < 2147483648 }
    requires small { 24 + 4 * length graph.now.widths + 4 * most_words graph.now.ops + bytes_of_arrays graph.now.arrays
        ≤ 16384 }
    requires labels { length graph.now.blocks + length graph.now.ops < 4294967296 }
{
    let form = split(alloc, graph, sets)?;
    let distances = next_use(alloc, graph)?;
    let places = allocate(alloc, &form, &distances)?;
    let items = select(alloc, graph, &places)?;
    Ok(items)
}

/// Variable 0 is passed in a register that the call takes, and its result stands in EAX; variable 1 is in EBX, which
/// calls keep. The array has three elements of two bytes, which take two words, from 24 below EBP on, and their number
/// stands before them. The loop of the first items has the label behind those of the blocks, and the loop of point 3 the
/// fourth behind that. Each item stands on a line as `{:?}` prints it; object 4294967295 is the depth word.
const ITEMS: &str = "\
Plain(Push(Reg(Ebp)))
Plain(Mov(Reg(Ebp), Esp))
Plain(Push(Reg(Ebx)))
Plain(Push(Reg(Esi)))
Plain(Push(Reg(Edi)))
Plain(Lea(Esp, Mem { base: Some(Ebp), index: None, disp: -28 }))
Plain(MovImm(Reg(Esi), 0))
Plain(Lea(Edi, Mem { base: Some(Ebp), index: None, disp: -16 }))
Label(2)
Plain(AluImm(Sub, Reg(Edi), 4))
Plain(Mov(Mem(Mem { base: Some(Edi), index: None, disp: 0 }), Esi))
Plain(Alu(Cmp, Reg(Edi), Esp))
JumpIf(Ne, 2)
Plain(MovImm(Mem(Mem { base: Some(Ebp), index: None, disp: -28 }), 3))
Label(0)
Point(0)
Plain(MovImm(Reg(Eax), 7))
Point(1)
Plain(MovImm(Reg(Ebx), 9))
Point(2)
AddressOf(Esi, 4294967295)
Plain(AluImm(Cmp, Mem(Mem { base: Some(Esi), index: None, disp: 0 }), 4096))
JumpTrap(Some(Ae))
Plain(AluImm(Add, Mem(Mem { base: Some(Esi), index: None, disp: 0 }), 1))
Plain(Push(Reg(Eax)))
CallFunction(3)
Plain(Lea(Esp, Mem { base: Some(Esp), index: None, disp: 4 }))
AddressOf(Esi, 4294967295)
Plain(AluImm(Sub, Mem(Mem { base: Some(Esi), index: None, disp: 0 }), 1))
Point(3)
Plain(Lea(Edi, Mem { base: Some(Ebp), index: None, disp: -24 }))
Plain(Lea(Esi, Mem { base: Some(Ebp), index: None, disp: -16 }))
Label(6)
Plain(AluImm(Sub, Reg(Esi), 4))
Plain(MovImm(Mem(Mem { base: Some(Esi), index: None, disp: 0 }), 0))
Plain(Alu(Cmp, Reg(Esi), Edi))
JumpIf(Ne, 6)
Point(4)
Plain(Alu(Cmp, Reg(Eax), Ebx))
JumpIf(L, 1)
JumpTo(0)
Label(1)
Point(5)
Plain(MovLoad(Ebx, Mem { base: Some(Ebp), index: None, disp: -4 }))
Plain(MovLoad(Esi, Mem { base: Some(Ebp), index: None, disp: -8 }))
Plain(MovLoad(Edi, Mem { base: Some(Ebp), index: None, disp: -12 }))
Plain(Leave)
Plain(Ret)
";

#[test]
fn call_clear_and_branch(rt: HostRuntime) {
    let words = [0].to_vec(rt.alloc()).expect(&rt, "a word");
    let mut graph = Graph::new(rt.alloc()).expect(&rt, "a graph");
    graph.add_var(Width::Two).expect(&rt, "a variable");
    graph.add_var(Width::Two).expect(&rt, "a variable");
    graph.add_array(2, 3).expect(&rt, "an array");
    graph.add_block().expect(&rt, "a block");
    append(&rt, &mut graph, 0, Op::Const(0, 7));
    append(&rt, &mut graph, 0, Op::Const(1, 9));
    append(&rt, &mut graph, 0, Op::Call(Some(0), 3, Words::new(words)));
    append(&rt, &mut graph, 0, Op::Clear(0));
    append(&rt, &mut graph, 0, Op::Branch(Comparison::Lt, 0, 1, 1, 0));
    append(&rt, &mut graph, 1, Op::Return(None));
    let sets = live(rt.alloc(), &graph).expect(&rt, "live sets");
    expect_none(&rt, sets.before(0));
    let items = items_of(rt.alloc(), &graph, &sets).expect(&rt, "the items");
    let counts = (items.len(), ITEMS.lines().count());
    expect(&rt, &counts, &(48, 48), "how many items");
    for (item, row) in items.iter().zip(ITEMS.lines()) {
        expect_printed(&rt, rt.alloc(), item, row);
    }
}
