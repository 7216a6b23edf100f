//! The items of points and blocks, and the moves between points.

ghost use Rattle.std.specs.Prelude.{◌≡◌, ◌<◌, ◌∷◌, ◌++◌, length, slice_get, OnOk};
ghost use Rattle.ia32_insn.specs.declared.item.Item.TheVariants as item;
ghost use Rattle.flow_graph.specs.Graphs.{IsPlaced, points_of};
ghost use Rattle.ia32_rows.specs.Rows.{block_rows, moves_to, point_row, point_rows};
ghost use Rattle.ia32_select.specs.Sites.{HasPoint, flow_of, placement_of, places_of};
ghost use Rattle.ia32_select.specs.Room.{HasRoom};

use crate::ops::emit_op;
use crate::site::{Site, moves_to};
use ia32_emit::emit_insns;
use ia32_insn::Item;
use pcc_base::NoMemory;

/// A point, and the items of its op.
fn emit_point(out: &mut Vec<Item>, site: &Site<'_>, point: u32) -> Result<(), NoMemory>
    requires room { HasRoom (flow_of site.now) }
    requires placed { IsPlaced (flow_of site.now) point }
    requires there { HasPoint site.now point }
    ensures { OnOk result (out.new.items
        ≡ out.old.items ++ point_row (flow_of site.now) (placement_of site.now) point) }
{
    out.push(Item::Point(point))?;
    emit_op(out, site, point, site.graph.op(point))
}

/// A point, and the moves to the next one, if there is one.
fn emit_point_and_moves(
    out: &mut Vec<Item>,
    site: &Site<'_>,
    point: u32,
    next: Option<u32>,
) -> Result<(), NoMemory>
    requires room { HasRoom (flow_of site.now) }
    requires placed { IsPlaced (flow_of site.now) point }
    requires there { HasPoint site.now point }
    ensures { OnOk result (out.new.items
        ≡ out.old.items ++ (point_row (flow_of site.now) (placement_of site.now) point
        ++ moves_to (placement_of site.now) point next)) }
{
    emit_point(out, site, point)?;
    emit_insns(out, moves_to(site, point, next))
}

/// The point at a place, if there are so many.
fn point_at(points: &[u32], place: usize) -> Option<u32>
    ensures { result ≡ slice_get points.now place }
{
    points.get(place).copied()
}

/// The label of a block, and its points.
fn emit_block(out: &mut Vec<Item>, site: &Site<'_>, block: u32) -> Result<(), NoMemory>
    requires room { HasRoom (flow_of site.now) }
    requires in_range { block < length (flow_of site.now).blocks }
    requires points { length (places_of site.now).before ≡ length (flow_of site.now).ops }
    ensures { OnOk result (out.new.items ≡ out.old.items ++ item.Label block
        ∷ point_rows (flow_of site.now) (placement_of site.now) (points_of (flow_of site.now) block)) }
{
    site.graph.is_flow();
    out.push(Item::Label(block))?;
    let points = site.graph.points_in(site.alloc, block)?;
    for place in 0..points.len() {
        let next = point_at(points.as_slice(), place + 1);
        emit_point_and_moves(out, site, points[place], next)?;
    }
    Ok(())
}

/// All blocks, in order.
pub(crate) fn emit_blocks(out: &mut Vec<Item>, site: &Site<'_>) -> Result<(), NoMemory>
    requires room { HasRoom (flow_of site.now) }
    requires points { length (places_of site.now).before ≡ length (flow_of site.now).ops }
    ensures { OnOk result (out.new.items ≡ out.old.items
        ++ block_rows (flow_of site.now) (placement_of site.now) 0 (flow_of site.now).blocks) }
{
    for block in 0..site.graph.blocks() {
        emit_block(out, site, block)?;
    }
    Ok(())
}
