//! The items of a graph over a legal map of it.

ghost use Rattle.std.specs.Prelude.{◌≡◌, ◌<◌, ◌^◌, IfOk};
ghost use Rattle.ia32_rows.specs.Rows.{selected};
ghost use Rattle.ia32_emit.specs.Locations.{distance, slots_of};
ghost use Rattle.ia32_placements.specs.Placed.{above_arrays, arrays_in};
ghost use Rattle.ia32_select.specs.Sites.{flow_of, placement_of, places_of};
ghost use Rattle.ia32_select.specs.Selections.{CanSelect, IsSelection};

use crate::blocks::emit_blocks;
use crate::frame::arrays_of;
use crate::headers::emit_headers;
use crate::site::Site;
use crate::size_laws::selected_is_code;
use crate::table_of_moves::table_of;
use flow_graph::Graph;
use ia32_emit::emit_prologue;
use ia32_insn::Item;
use pcc_base::NoMemory;
use puzzle_board::PointMap;
use std::alloc::Global;

/// The offset of what is so many bytes below EBP.
fn below(bytes: u32) -> i32
    requires { bytes < 2 ^ 31 }
    ensures { distance result ≡ bytes }
{
    -(bytes as i32)
}

/// The items that the definitions name; `above` is how many bytes of the frame are above its arrays.
fn select_items(site: &Site<'_>, above: u32) -> Result<Vec<Item>, NoMemory>
    requires selects { CanSelect (flow_of site.now) (places_of site.now) }
    requires arrays { slots_of site.now.arrays.now ≡ arrays_in (flow_of site.now) (places_of site.now) }
    requires above { above ≡ above_arrays (places_of site.now) }
    ensures { IfOk result (λ v. v.items ≡ selected (flow_of site.now) (placement_of site.now)) }
{
    let mut items = Vec::new(site.alloc);
    emit_prologue(
        &mut items,
        below(site.map.frame()),
        below(above),
        site.graph.blocks(),
    )?;
    emit_headers(&mut items, site)?;
    emit_blocks(&mut items, site)?;
    Ok(items)
}

/// The items of a function over any legal map of its graph: the rows of its ops, by where their operands and results
/// stand, and between two points the instructions that move each variable to where it is wanted next. The only refusal is
/// want of memory.
pub fn select(alloc: Global, graph: &Graph, map: &PointMap) -> Result<Vec<Item>, NoMemory>
    requires { CanSelect graph.now map.now }
    ensures { IfOk result (λ items. IsSelection graph.now map.now items.items) }
{
    graph.is_flow();
    selected_is_code();
    let moves = table_of(alloc, graph, map)?;
    let arrays = arrays_of(alloc, graph, map)?;
    let site = Site {
        alloc,
        graph,
        map,
        moves: &moves,
        arrays: arrays.offsets.as_slice(),
    };
    let items = select_items(&site, arrays.above)?;
    Ok(items)
}
