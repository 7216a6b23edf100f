//! The elementary form of the graph of a function.

ghost use Rattle.std.specs.Prelude.{◌≡◌, ◌<◌, ◌+◌, ◌*◌, ◌↔◌, length, Some, IfOk, IfSome, IsTrue};
ghost use Rattle.flow_graph.specs.Graphs.{IsPlaced, has_point};
ghost use Rattle.flow_graph.specs.Lives.{AreLive, IsAscending};
ghost use Rattle.flow_liveness.specs.Names.{first_name, name_after, name_before, named_after, place_of};
ghost use Rattle.allocator.specs.SplitForms.{FixedOperandsDie, IsForm, placed_count};

use crate::point_numbers::places_of;
use flow_graph::{Graph, LiveSets};
use pcc_base::NoMemory;
use std::alloc::Global;
use std::marker::Model;

/// The elementary form of a graph (Quintão Pereira and Palsberg, PLDI 2008, section 2): each variable has a fresh name
/// before each point and another after it, where it is live, and from a point to the next one a parallel copy takes the
/// variables from their names after the one to those before the other. A contract sees the graph and its live sets.
#[derive(Drop)]
pub struct Elementary {
    graph: Graph,
    live: LiveSets,
    places: Vec<Option<u32>>,
}

impl Model for Elementary {
    ghost use Rattle.flow_liveness.specs.Names.{joined};
    ghost use Rattle.allocator.specs.SplitForms.{ArePlaces, Form, IsForm};

    ghost Value = { Form };

    ghost view = { λ e. record { graph = e.graph; lives = e.live } };

    ghost invariant = { λ e. IsForm (record { graph = e.graph; lives = e.live })
        × ArePlaces (joined e.graph.blocks) e.places.items };
}

/// The elementary form of a graph. It keeps a place for each point, and a copy of the graph and of its live sets.
pub fn split(alloc: Global, graph: &Graph, live: &LiveSets) -> Result<Elementary, NoMemory>
    requires live { AreLive graph.now live.now }
    requires dies { FixedOperandsDie graph.now }
    requires few { placed_count graph.now < 2147483648 }
    ensures { IfOk result (λ form. form ≡ record { graph = graph.now; lives = live.now }) }
{
    let places = places_of(alloc, graph)?;
    Ok(Elementary {
        graph: graph.copy(alloc)?,
        live: live.copy(alloc)?,
        places,
    })
}

/// Whether a variable is among those of a live set, by binary search.
fn is_listed(vars: &[u32], var: u32) -> bool
    requires { IsAscending vars.now }
    ensures { result ≡ has_point var vars.now }
{
    vars.binary_search(&var).is_ok()
}

/// Whether a variable is live after a point or defined by its op.
fn is_named_after(graph: &Graph, live: &LiveSets, point: u32, var: u32) -> bool
    requires placed { IsPlaced graph.now point }
    requires live { AreLive graph.now live.now }
    ensures { result ≡ has_point var (named_after graph.now live.now point) }
{
    graph.is_flow();
    graph.op(point).defined() == Some(var) || is_listed(live.after(point), var)
}

/// The first of the two names of a variable at the point of a place.
fn first_name(place: u32, var: u32) -> u64
    requires { place < 2147483648 }
    ensures { result ≡ first_name var place }
{
    2 * (place as u64 * 4294967296 + var as u64)
}

impl Elementary {
    /// The graph that the form is of.
    pub fn graph(&self) -> &Graph
        ensures { result.now ≡ self.now.graph }
    {
        &self.graph
    }

    /// The live sets of the graph.
    pub fn live(&self) -> &LiveSets
        ensures { result.now ≡ self.now.lives }
    {
        &self.live
    }

    /// What every form keeps, as a fact for callers.
    pub fn is_form(&self)
        ensures { IsForm self.now }
    {
        let _ = &self.places;
    }

    /// The place of a point among those of the blocks. None where it is in no block.
    fn place(&self, point: u32) -> Option<u32>
        ensures value { result ≡ place_of self.now.graph point }
        ensures there { IfSome result (λ place. (place < 2147483648) × IsPlaced self.now.graph point) }
    {
        self.places.get(point as usize).copied().flatten()
    }

    /// Whether a point is in a block.
    pub(crate) fn is_placed(&self, point: u32) -> bool
        ensures { IsTrue result ↔ IsPlaced self.now.graph point }
    {
        self.place(point).is_some()
    }

    /// The name of a variable before a point. None where the variable isn't live there, which a binary search tells.
    pub fn name_before(&self, point: u32, var: u32) -> Option<u64>
        ensures { result ≡ name_before self.now.graph self.now.lives point var }
    {
        self.graph.is_flow();
        let place = self.place(point)?;
        if is_listed(self.live.before(point), var) {
            Some(first_name(place, var))
        } else {
            None
        }
    }

    /// The name of a variable after a point. None where the variable is neither live there, which a binary search tells,
    /// nor defined by the point's op.
    pub fn name_after(&self, point: u32, var: u32) -> Option<u64>
        ensures { result ≡ name_after self.now.graph self.now.lives point var }
    {
        self.graph.is_flow();
        let place = self.place(point)?;
        if is_named_after(&self.graph, &self.live, point, var) {
            Some(first_name(place, var) + 1)
        } else {
            None
        }
    }
}
