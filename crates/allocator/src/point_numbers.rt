//! The place of each point among the points of the blocks, which names are made of.

ghost use Rattle.std.specs.Prelude.{ℕ, ◌≡◌, ◌<◌, ◌+◌, ◌++◌, List, length, None, replicate, IfOk};
ghost use Rattle.flow_graph.specs.Graphs.{IsIn};
ghost use Rattle.flow_liveness.specs.Names.{joined};
ghost use Rattle.allocator.specs.SplitForms.{ArePlaces, placed_count};

use flow_graph::Graph;
use pcc_base::NoMemory;
use std::alloc::Global;

/// No places, for so many points.
fn no_places(alloc: Global, points: u32) -> Result<Vec<Option<u32>>, NoMemory>
    ensures { IfOk result (λ places. places.items ≡ replicate points None) }
{
    let mut places = Vec::new(alloc);
    for _point in 0..points {
        places.push(None)?;
    }
    Ok(places)
}

/// Gives the points of a block their places, from `first` on.
fn place_points(places: &mut [Option<u32>], points: &[u32], first: u32)
    requires there { (point : ℕ) → IsIn point points.now → point < length places.old }
    requires few { first + length points.now < 2147483648 }
    ensures placed { (done : List ℕ) → length done ≡ first → ArePlaces done places.old
        → ArePlaces (done ++ points.now) places.new }
    ensures many { length places.new ≡ length places.old }
{
    for i in 0..points.len() {
        places[points[i] as usize] = Some(first + i as u32);
    }
}

/// The place of each point of a graph.
pub fn places_of(alloc: Global, graph: &Graph) -> Result<Vec<Option<u32>>, NoMemory>
    requires { placed_count graph.now < 2147483648 }
    ensures { IfOk result (λ places. ArePlaces (joined graph.now.blocks) places.items) }
{
    graph.is_flow();
    let mut places = no_places(alloc, graph.points())?;
    let mut first = 0;
    for block in 0..graph.blocks() {
        let points = graph.points_in(alloc, block)?;
        place_points(&mut places, &points, first);
        first += points.len() as u32;
    }
    Ok(places)
}
