//! A search back from the uses of a variable, breadth first.

ghost use Rattle.std.specs.Prelude.{ℕ, ◌≡◌, ◌<◌, ◌≤◌, ◌+◌, [], length, OnOk};
ghost use Rattle.flow_liveness.specs.Index.{ArePredecessors, AreUses};
ghost use Rattle.flow_liveness.specs.Search.{AllEarlier, IsReach, IsSearch, IsStart, NoneLater, unmarked};
ghost use Rattle.flow_liveness.specs.Lists.{Has};

use crate::lists::Lists;
use crate::search_back::{Search, is_live_before};
use flow_graph::Graph;
use pcc_base::NoMemory;

/// Begins anew, with the points that use the variable.
fn start(search: &mut Search, var: u32, uses: &[u32]) -> Result<(), NoMemory>
    requires points { (point : ℕ) → Has uses.now point → point < length search.old.used }
    requires earlier { AllEarlier search.old.used var }
    ensures start { OnOk result (IsStart var (Has uses.now) search.new.nexts.items search.new.used) }
    ensures after { OnOk result (search.new.after.items ≡ []) }
    ensures used { OnOk result (length search.new.used ≡ length search.old.used) }
    ensures passed { OnOk result (search.new.passed ≡ search.old.passed) }
{
    search.nexts.clear();
    search.after.clear();
    for point in uses {
        if !search.used.has(*point, var) {
            search.used.set(*point, var);
            search.nexts.push((*point, 0))?;
        }
    }
    Ok(())
}

/// Goes one step back from the point found at a place.
fn step_back(
    search: &mut Search,
    graph: &Graph,
    predecessors: &Lists<u32>,
    var: u32,
    place: usize,
) -> Result<(), NoMemory>
    requires in_range { place < length search.old.nexts.items }
    requires index { ArePredecessors graph.now predecessors.now }
    requires search { IsSearch graph.now var place
        search.old.nexts.items search.old.after.items search.old.used search.old.passed }
    ensures search { OnOk result (IsSearch graph.now var (place + 1)
        search.new.nexts.items search.new.after.items search.new.used search.new.passed) }
    ensures fewer { OnOk result
        (length search.new.nexts.items + unmarked var search.new.passed
        ≤ length search.old.nexts.items + unmarked var search.old.passed) }
{
    graph.is_flow();
    let (point, steps) = search.nexts[place];
    if !is_live_before(graph, var, point, steps) {
        return Ok(());
    }
    for before in predecessors.at(point) {
        search.pass(var, *before, steps)?;
    }
    Ok(())
}

/// Finds where the next use of a variable is, from everywhere. The marks are of earlier variables.
pub fn run(
    search: &mut Search,
    graph: &Graph,
    predecessors: &Lists<u32>,
    uses: &Lists<u32>,
    var: u32,
) -> Result<(), NoMemory>
    requires in_range { var < length graph.now.widths }
    requires predecessors { ArePredecessors graph.now predecessors.now }
    requires uses { AreUses graph.now uses.now }
    requires used { AllEarlier search.old.used var }
    requires passed { AllEarlier search.old.passed var }
    requires used_points { length search.old.used ≡ length graph.now.ops }
    requires passed_points { length search.old.passed ≡ length graph.now.ops }
    ensures reach { OnOk result (IsReach graph.now var search.new.nexts.items search.new.after.items) }
    ensures used { OnOk result (NoneLater search.new.used var) }
    ensures passed { OnOk result (NoneLater search.new.passed var) }
    ensures used_points { OnOk result (length search.new.used ≡ length graph.now.ops) }
    ensures passed_points { OnOk result (length search.new.passed ≡ length graph.now.ops) }
{
    graph.is_flow();
    start(search, var, uses.at(var))?;
    let mut head = 0;
    while head < search.nexts.len() {
        step_back(search, graph, predecessors, var, head)?;
        head += 1;
    }
    Ok(())
}
