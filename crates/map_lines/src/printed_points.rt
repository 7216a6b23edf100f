//! The text of the blocks and points of a function.

ghost use Rattle.std.specs.Prelude.{◌≡◌, ◌<◌, ◌++◌, ℕ, OnOk, flat_map, length, map, slice_index, slice_index_or};
ghost use Rattle.flow_graph.specs.declared.op.Op.TheVariants.{Turn};
ghost use Rattle.flow_graph.specs.Graphs.{IsIn, IsPlaced};
ghost use Rattle.map_lines.specs.MapOf.{block_over, point_over};
ghost use Rattle.map_lines.specs.Printing.{graph_of, home_of};
ghost use Rattle.map_text.specs.Words.{block_lines, line_text, numbered, point_lines};

use crate::home::Home;
use allocator::{areas_of, pieces_of};
use map_text::{push_after, push_before, push_block, push_board, push_point, push_spilled};
use pcc_base::NoMemory;
use std::alloc::Global;

/// Puts the lines of a point of a block at the end: its op, its board, and where variables stand.
fn print_point(
    alloc: Global,
    out: &mut Vec<u8>,
    home: &Home,
    addresses: &[u32],
    point: u32,
) -> Result<(), NoMemory>
    requires placed { IsPlaced (graph_of home.now) point }
    requires as_many { length home.now.places.before ≡ length (graph_of home.now).ops }
    requires address { point < length addresses.now }
    ensures { OnOk result (
        out.new.items
        ≡ out.old.items ++ flat_map line_text (point_lines (point_over (graph_of home.now) (home_of home.now)
        (λ p. slice_index addresses.now p) point (slice_index_or (graph_of home.now).ops point Turn)))) }
{
    let op = home.form.graph().op(point);
    let pieces = pieces_of(alloc, &home.form, point)?;
    push_point(out, point, addresses[point as usize], op)?;
    push_board(out, &areas_of(op), pieces.as_slice())?;
    push_before(out, home.places.entries_before(point))?;
    push_after(out, home.places.entries_after(point))?;
    push_spilled(out, home.places.spilled(point))?;
    Ok(())
}

/// Puts the lines of points at the end, which all stand in blocks.
fn print_points(
    alloc: Global,
    out: &mut Vec<u8>,
    home: &Home,
    addresses: &[u32],
    points: &[u32],
) -> Result<(), NoMemory>
    requires placed { (p : ℕ) → IsIn p points.now → IsPlaced (graph_of home.now) p }
    requires as_many { length home.now.places.before ≡ length (graph_of home.now).ops }
    requires address { (p : ℕ) → IsPlaced (graph_of home.now) p → p < length addresses.now }
    ensures { OnOk result (
        out.new.items
        ≡ out.old.items ++ flat_map line_text (flat_map point_lines (block_over (graph_of home.now) (home_of home.now)
        (λ p. slice_index addresses.now p) points.now))) }
{
    for point in points {
        print_point(alloc, out, home, addresses, *point)?;
    }
    Ok(())
}

/// Puts the lines of the blocks of a function at the end, each with its points.
pub(crate) fn print_blocks(
    alloc: Global,
    out: &mut Vec<u8>,
    home: &Home,
    addresses: &[u32],
) -> Result<(), NoMemory>
    requires as_many { length home.now.places.before ≡ length (graph_of home.now).ops }
    requires address { (p : ℕ) → IsPlaced (graph_of home.now) p → p < length addresses.now }
    ensures { OnOk result (
        out.new.items
        ≡ out.old.items ++ flat_map line_text (numbered block_lines 0
        (map (block_over (graph_of home.now) (home_of home.now) (λ p. slice_index addresses.now p))
        (graph_of home.now).blocks))) }
{
    let graph = home.form.graph();
    for block in 0..graph.blocks() {
        let points = graph.points_in(alloc, block)?;
        push_block(out, block)?;
        print_points(alloc, out, home, addresses, points.as_slice())?;
    }
    Ok(())
}
