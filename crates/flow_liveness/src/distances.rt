//! How far the next use of each variable is from each point.

ghost use Rattle.std.specs.Prelude.{ℕ, ◌≡◌, ◌<◌, [], List, Some, length, replicate, slice_get, IfOk, MatchResult, OnOk};
ghost use Rattle.flow_graph.specs.Liveness.{IsDistance};
ghost use Rattle.flow_liveness.specs.Distances.{AreDistances, Rises, distance_at};
ghost use Rattle.flow_liveness.specs.Lists.{Adds, Has, list_at, with_last};
ghost use Rattle.flow_liveness.specs.Search.{IsReach};

use crate::lists::Lists;
use crate::predecessors::predecessors_of;
use crate::search::run;
use crate::search_back::Search;
use crate::uses::uses_of;
use flow_graph::Graph;
use pcc_base::NoMemory;
use std::alloc::Global;
use std::marker::Model;

/// The distance of each variable at each point, in steps: 0 where the point uses it, else the least length of a path
/// to a use. A contract sees for each point the variables with their distances, in ascending order.
#[derive(Drop)]
pub struct Distances {
    lists: Lists<(u32, u32)>,
}

impl Model for Distances {
    ghost use Rattle.std.specs.Prelude.{List, ℕ};
    ghost use Rattle.flow_liveness.specs.Distances.{Rises};
    ghost use Rattle.flow_liveness.specs.Lists.{list_at};

    ghost Value = { List (List (ℕ × ℕ)) };

    ghost view = { λ d. d.lists };

    ghost invariant = { λ d. (point : ℕ) → Rises (list_at d.lists point) };
}

/// Where the entry of a variable is.
fn place_of(entries: &[(u32, u32)], var: u32) -> Result<usize, usize>
    requires { Rises entries.now }
    ensures { MatchResult result
        (λ place. (n : ℕ) × (slice_get entries.now place ≡ Some (var, n)))
        (λ _. (place n : ℕ) → slice_get entries.now place ≡ Some (var, n) → ⊥) }
{
    entries.binary_search_by_key(&var, |&(v, _)| v)
}

impl Distances {
    // No distances, at so many points.
    fn new(alloc: Global, points: u32) -> Result<Distances, NoMemory>
        ensures { IfOk result (λ distances. distances ≡ replicate points []) }
    {
        Ok(Distances {
            lists: Lists::new(alloc, points)?,
        })
    }

    // Lists the distance of a variable at a point; those listed there are smaller.
    fn add(&mut self, point: u32, var: u32, distance: u32) -> Result<(), NoMemory>
        requires in_range { point < length self.old }
        requires smaller { (v n : ℕ) → Has (list_at self.old point) (v, n) → v < var }
        ensures { OnOk result (self.new ≡ with_last self.old point (var, distance)) }
    {
        self.lists.push(point, (var, distance))
    }

    // What distances always keep: at each point the variables rise.
    fn rise(&self)
        ensures { (point : ℕ) → Rises (list_at self.now point) }
    {
        let _ = &self.lists;
    }

    /// The distance of a variable at a point, if a path from there reaches a use of it. It is found by binary search.
    pub fn at(&self, point: u32, var: u32) -> Option<u32>
        ensures { result ≡ distance_at self.now point var }
    {
        if point as usize >= self.lists.len() {
            return None;
        }
        let entries = self.lists.at(point);
        match place_of(entries, var) {
            Ok(place) => Some(entries[place].1),
            Err(_) => None,
        }
    }
}

/// Lists the distances of a variable. Those listed before are smaller.
fn add_all(
    distances: &mut Distances,
    graph: &Graph,
    nexts: &[(u32, u32)],
    var: u32,
) -> Result<(), NoMemory>
    requires reach { (after : List ℕ) × IsReach graph.now var nexts.now after }
    requires points { length distances.old ≡ length graph.now.ops }
    requires smaller { (entry : ℕ × ℕ) (point : ℕ) → Has (list_at distances.old point) entry → entry.0 < var }
    ensures { OnOk result (Adds distances.old distances.new
        (λ entry point. (entry.0 ≡ var) × IsDistance graph.now var point entry.1)) }
{
    graph.is_flow();
    for (point, steps) in nexts {
        distances.add(*point, var, *steps)?;
    }
    Ok(())
}

/// The distance to the next use of each variable from each point of a graph. The search comes to each point and each edge
/// once for each variable that has a distance there.
pub fn next_use(alloc: Global, graph: &Graph) -> Result<Distances, NoMemory>
    ensures { IfOk result (AreDistances graph.now) }
{
    graph.is_flow();
    let predecessors = predecessors_of(alloc, graph)?;
    let uses = uses_of(alloc, graph)?;
    let mut search = Search::new(alloc, graph.points())?;
    let mut distances = Distances::new(alloc, graph.points())?;
    for var in 0..graph.vars() {
        run(&mut search, graph, &predecessors, &uses, var)?;
        add_all(&mut distances, graph, search.nexts.as_slice(), var)?;
    }
    distances.rise();
    Ok(distances)
}
