//! What a search back from the uses of a variable has found, and how it comes to a point.

ghost use Rattle.std.specs.Prelude.{◌≡◌, ◌<◌, ◌⊎◌, None, length, replicate, IfOk, MatchBool, OnOk};
ghost use Rattle.flow_graph.specs.Liveness.{IsDefinedAt, ReachesUse};
ghost use Rattle.flow_liveness.specs.SearchBack.{IsMarked, IsNext, Passes};

use crate::marks::Marks;
use flow_graph::Graph;
use pcc_base::NoMemory;
use std::alloc::Global;

/// What a search has found of one variable, and marks that serve for all variables in turn.
#[derive(Drop)]
pub struct Search {
    /// Each point from which a path leads to a use, with the distance of the variable there, the nearest first.
    pub nexts: Vec<(u32, u32)>,
    /// Each point after which the variable is live.
    pub after: Vec<u32>,
    /// The points that use the variable.
    pub used: Marks,
    /// The points after which the variable is known to be live.
    pub passed: Marks,
}

/// Whether a variable is live before a point, where its next use is so many steps away.
pub(crate) fn is_live_before(graph: &Graph, var: u32, point: u32, steps: u32) -> bool
    requires { IsNext graph.now var point steps }
    ensures { MatchBool result
        (ReachesUse graph.now var steps point)
        ((0 < steps) × IsDefinedAt graph.now var point) }
{
    steps == 0 || graph.op(point).defined() != Some(var)
}

impl Search {
    /// A search that has found nothing, in a graph of so many points.
    pub fn new(alloc: Global, points: u32) -> Result<Search, NoMemory>
        ensures used { IfOk result (λ search. search.used ≡ replicate points None) }
        ensures passed { IfOk result (λ search. search.passed ≡ replicate points None) }
    {
        Ok(Search {
            nexts: Vec::new(alloc),
            after: Vec::new(alloc),
            used: Marks::new(alloc, points)?,
            passed: Marks::new(alloc, points)?,
        })
    }

    /// Comes to a point from one behind it, from which a use is so many steps away.
    pub fn pass(&mut self, var: u32, point: u32, steps: u32) -> Result<(), NoMemory>
        requires used { point < length self.old.used }
        requires passed { point < length self.old.passed }
        requires few { IsMarked self.old.passed var point ⊎ (steps < 4294967295) }
        ensures { OnOk result (Passes var point steps
            self.old.nexts.items self.old.after.items self.old.used self.old.passed
            self.new.nexts.items self.new.after.items self.new.used self.new.passed) }
    {
        if self.passed.has(point, var) {
            return Ok(());
        }
        self.passed.set(point, var);
        self.after.push(point)?;
        if !self.used.has(point, var) {
            self.nexts.push((point, steps + 1))?;
        }
        Ok(())
    }
}
