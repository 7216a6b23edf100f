//! Which variables are live before and after each point.

ghost use Rattle.std.specs.Prelude.{ℕ, ◌≡◌, ◌<◌, List, length, IfOk, OnOk};
ghost use Rattle.flow_graph.specs.Lives.{AreLive, at_point};
ghost use Rattle.flow_graph.specs.Liveness.{IsLiveAfter, IsLiveBefore};
ghost use Rattle.flow_liveness.specs.Lists.{Adds, Has};
ghost use Rattle.flow_liveness.specs.Search.{IsReach};

use crate::predecessors::predecessors_of;
use crate::search::run;
use crate::search_back::{Search, is_live_before};
use crate::uses::uses_of;
use flow_graph::{Graph, LiveSets};
use pcc_base::NoMemory;
use std::alloc::Global;

/// Lists a variable before each point where it is live. Those listed before are smaller.
fn add_befores(
    sets: &mut LiveSets,
    graph: &Graph,
    nexts: &[(u32, u32)],
    var: u32,
) -> Result<(), NoMemory>
    requires reach { (after : List ℕ) × IsReach graph.now var nexts.now after }
    requires points { length sets.old.before ≡ length graph.now.ops }
    requires smaller { (v point : ℕ) → Has (at_point sets.old.before point) v → v < var }
    ensures before { OnOk result
        (Adds sets.old.before sets.new.before (λ v point. (v ≡ var) × IsLiveBefore graph.now var point)) }
    ensures after { OnOk result (sets.new.after ≡ sets.old.after) }
{
    graph.is_flow();
    for (point, steps) in nexts {
        if is_live_before(graph, var, *point, *steps) {
            sets.add_before(*point, var)?;
        }
    }
    Ok(())
}

/// Lists a variable after each point where it is live. Those listed before are smaller.
fn add_afters(sets: &mut LiveSets, graph: &Graph, after: &[u32], var: u32) -> Result<(), NoMemory>
    requires reach { (nexts : List (ℕ × ℕ)) × IsReach graph.now var nexts after.now }
    requires points { length sets.old.after ≡ length graph.now.ops }
    requires smaller { (v point : ℕ) → Has (at_point sets.old.after point) v → v < var }
    ensures after { OnOk result
        (Adds sets.old.after sets.new.after (λ v point. (v ≡ var) × IsLiveAfter graph.now var point)) }
    ensures before { OnOk result (sets.new.before ≡ sets.old.before) }
{
    graph.is_flow();
    for point in after {
        sets.add_after(*point, var)?;
    }
    Ok(())
}

/// The variables that are live before and after each point of a graph: some path from there reaches a use with no
/// definition before it. The search comes to each point and each edge once for each variable that is live there.
pub fn live(alloc: Global, graph: &Graph) -> Result<LiveSets, NoMemory>
    ensures { IfOk result (AreLive graph.now) }
{
    graph.is_flow();
    let predecessors = predecessors_of(alloc, graph)?;
    let uses = uses_of(alloc, graph)?;
    let mut search = Search::new(alloc, graph.points())?;
    let mut sets = LiveSets::new(alloc, graph.points())?;
    for var in 0..graph.vars() {
        run(&mut search, graph, &predecessors, &uses, var)?;
        add_befores(&mut sets, graph, search.nexts.as_slice(), var)?;
        add_afters(&mut sets, graph, search.after.as_slice(), var)?;
    }
    Ok(sets)
}
