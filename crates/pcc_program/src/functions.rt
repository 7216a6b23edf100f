//! The homes and the sections of a program's functions.

ghost use Rattle.std.specs.Prelude.{ℕ, ◌≡◌, ◌<◌, ◌≤◌, ◌^◌, IfOk, length, map, sum_by};
ghost use Rattle.std.specs.List.{All};
ghost use Rattle.ia32_select.specs.Sizes.{most_bytes};
ghost use Rattle.map_lines.specs.Printing.{graph_of};
ghost use Rattle.pcc_program.specs.Code.{HasFrame};
ghost use Rattle.pcc_program.specs.Passes.{AreSectionsFrom, IsAllocated, IsSectionOf};

use allocator::{allocate, split};
use flow_graph::Graph;
use flow_liveness::{live, next_use};
use ia32_asm::{Section, assemble};
use ia32_select::select;
use map_lines::Home;
use pcc_base::NoMemory;
use std::alloc::Global;

/// The home of the variables of a graph: what is live in it, and where they stand.
fn home_for(alloc: Global, graph: &Graph) -> Result<Home, NoMemory>
    requires { (functions : ℕ) × (objects : ℕ) × HasFrame functions objects graph.now }
    ensures graph { IfOk result (λ home. graph_of home ≡ graph.now) }
    ensures allocated { IfOk result IsAllocated }
{
    let lives = live(alloc, graph)?;
    lives.is_lives();
    let distances = next_use(alloc, graph)?;
    let form = split(alloc, graph, &lives)?;
    form.is_form();
    let places = allocate(alloc, &form, &distances)?;
    Ok(Home { form, places })
}

/// The home of each graph's variables, in order.
pub(crate) fn homes_of(alloc: Global, graphs: &[Graph]) -> Result<Vec<Home>, NoMemory>
    requires { (functions : ℕ) × (objects : ℕ) × All (HasFrame functions objects) graphs.now }
    ensures graphs { IfOk result (λ homes. map graph_of homes.items ≡ graphs.now) }
    ensures allocated { IfOk result (λ homes. All IsAllocated homes.items) }
{
    let mut homes = Vec::new(alloc);
    for graph in graphs {
        homes.push(home_for(alloc, graph)?)?;
    }
    Ok(homes)
}

/// The section of a function of this number: the items of its graph over its home, assembled.
fn section_of(alloc: Global, function: u32, home: &Home) -> Result<Section, NoMemory>
    requires graph { (functions : ℕ) × (objects : ℕ) × HasFrame functions objects (graph_of home.now) }
    requires allocated { IsAllocated home.now }
    requires small { most_bytes (graph_of home.now) < 2 ^ 30 }
    ensures { IfOk result (IsSectionOf home.now function) }
{
    let items = select(alloc, home.form.graph(), &home.places)?;
    let section = assemble(alloc, function, &items)?;
    Ok(section)
}

/// The section of each function, in order.
pub(crate) fn sections_of(alloc: Global, homes: &[Home]) -> Result<Vec<Section>, NoMemory>
    requires graphs { (functions : ℕ) × (objects : ℕ) × All (HasFrame functions objects) (map graph_of homes.now) }
    requires few { length homes.now ≤ 65536 }
    requires allocated { All IsAllocated homes.now }
    requires small { sum_by most_bytes (map graph_of homes.now) < 2 ^ 30 }
    ensures { IfOk result (λ sections. AreSectionsFrom 0 homes.now sections.items) }
{
    let mut sections = Vec::new(alloc);
    for function in 0..homes.len() as u32 {
        let home = &homes[function as usize];
        sections.push(section_of(alloc, function, home)?)?;
    }
    Ok(sections)
}
