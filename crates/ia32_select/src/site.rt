//! A graph over a map: where its variables and its frame arrays stand, and what moves between points.

ghost use Rattle.std.specs.Prelude.{◌≡◌, ◌<◌, ◌+◌, ◌^◌, IfOk, map, option_map, slice_index_or};
ghost use Rattle.ia32_insn.specs.declared.item.Item.TheVariants as item;
ghost use Rattle.ia32_rows.specs.Rows.{loop_label, moves_into, moves_to};
ghost use Rattle.ia32_emit.specs.Locations.{distance, place_of, slots_of};
ghost use Rattle.ia32_select.specs.Sites.{HasPoint, after_at, before_at, flow_of, placement_of};

use crate::exits::first_point;
use crate::move_table::MoveTable;
use crate::places::location_or_ebp;
use flow_graph::Graph;
use ia32_emit::Location;
use ia32_insn::Insn;
use pcc_base::NoMemory;
use puzzle_board::PointMap;
use std::alloc::Global;

/// A graph, a map of it, the instructions between its points, and the offsets of its frame arrays from EBP.
#[derive(Drop)]
pub struct Site<'a> {
    pub alloc: Global,
    pub graph: &'a Graph,
    pub map: &'a PointMap,
    pub moves: &'a MoveTable,
    pub arrays: &'a [i32],
}

/// Where a variable stands before a point; one that stands nowhere is at EBP.
pub fn before(site: &Site<'_>, point: u32, variable: &u32) -> Location
    requires { HasPoint site.now point }
    ensures { place_of result ≡ before_at site.now point variable.now }
{
    location_or_ebp(site.map.before(point, *variable))
}

/// Where a variable stands after a point; one that stands nowhere is at EBP.
pub fn after(site: &Site<'_>, point: u32, variable: &u32) -> Location
    requires { HasPoint site.now point }
    ensures { place_of result ≡ after_at site.now point variable.now }
{
    location_or_ebp(site.map.after(point, *variable))
}

/// Where a variable stands after a point, if there is one.
pub(crate) fn any_after(site: &Site<'_>, point: u32, variable: &Option<u32>) -> Option<Location>
    requires { HasPoint site.now point }
    ensures { option_map place_of result ≡ option_map (after_at site.now point) variable.now }
{
    match variable {
        Some(variable) => Some(after(site, point, variable)),
        None => None,
    }
}

/// Where each of these variables stands before a point.
pub(crate) fn all_before(
    site: &Site<'_>,
    point: u32,
    variables: &[u32],
) -> Result<Vec<Location>, NoMemory>
    requires { HasPoint site.now point }
    ensures { IfOk result (λ locations. map place_of locations.items
        ≡ map (before_at site.now point) variables.now) }
{
    let mut locations = Vec::new(site.alloc);
    for variable in variables {
        locations.push(before(site, point, variable))?;
    }
    Ok(locations)
}

/// Where element 0 of a frame array stands, or 0 where there is no such array.
pub fn array_at(site: &Site<'_>, array: u32) -> i32
    ensures { distance result ≡ slice_index_or (slots_of site.now.arrays.now) array 0 }
{
    match site.arrays.get(array as usize) {
        Some(offset) => *offset,
        None => 0,
    }
}

/// The bytes of an element of a frame array, and the number of its elements; 0 and 0 where there is no such array.
pub fn array_of(site: &Site<'_>, array: u32) -> (u8, u32)
    ensures { result ≡ slice_index_or (flow_of site.now).arrays array (0, 0) }
{
    if array < site.graph.arrays() {
        site.graph.array(array)
    } else {
        (0, 0)
    }
}

/// The label of a point's loop or detour.
pub fn loop_label(site: &Site<'_>, point: u32) -> u32
    requires { loop_label (flow_of site.now) point < 2 ^ 32 }
    ensures { result ≡ loop_label (flow_of site.now) point }
{
    site.graph.blocks() + 1 + point
}

/// The moves from a point to the next one, if there is one.
pub fn moves_to<'a>(site: &Site<'a>, point: u32, next: Option<u32>) -> &'a [Insn]
    ensures { map item.Plain result.now ≡ moves_to (placement_of site.now) point next }
{
    match next {
        Some(next) => site.moves.between(point, next),
        None => &[],
    }
}

/// The moves from a point to the first point of a block.
pub fn moves_into<'a>(site: &Site<'a>, point: u32, block: u32) -> &'a [Insn]
    ensures { map item.Plain result.now ≡ moves_into (flow_of site.now) (placement_of site.now) point block }
{
    moves_to(site, point, first_point(site.graph, block))
}
