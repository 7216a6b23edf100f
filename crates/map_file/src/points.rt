//! Which points and blocks a function of a map may have.

ghost use Rattle.std.specs.Prelude.{◌≡◌, ◌<◌, ◌++◌, All, IfOk, OnOk, flat_map, length, map, true, false};
ghost use Rattle.std.specs.Bool.{Decides};
ghost use Rattle.flow_graph.specs.Graphs as graphs;
ghost use Rattle.flow_graph.specs.Graphs.{IsDistinct};
ghost use Rattle.map_text.specs.Maps.{points_of};
ghost use Rattle.map_text.specs.Rules.{IsMapBlock, IsMapPoint};
ghost use Rattle.map_file.specs.Views.{block_of, function_of, map_of, point_of};

use crate::distinct::{are_all_distinct, are_distinct};
use crate::file::{MapBlock, MapFile, MapFunction, MapPoint};
use crate::ops::{is_end, is_op, is_word};
use crate::pieces::are_pieces;
use crate::standings::are_standings;
use pcc_base::NoMemory;
use puzzle_board::Area;

// ---- blocks

/// Whether none of these points has an op that is an end.
fn are_no_ends(points: &[MapPoint]) -> bool
    ensures { Decides result (All (λ p. graphs.is_end p.op ≡ false) (map point_of points.now)) }
{
    points.iter().all(|point| !is_end(&point.op))
}

/// Whether a block has a point, its last op is an end, and no other is.
fn is_block(block: &MapBlock) -> bool
    ensures { Decides result (IsMapBlock (block_of block.now)) }
{
    match block.points.split_last() {
        None => false,
        Some((last, others)) => is_end(&last.op) && are_no_ends(others),
    }
}

/// Whether a function may have each of these blocks.
pub(crate) fn are_blocks(blocks: &[MapBlock]) -> bool
    ensures { Decides result (All IsMapBlock (map block_of blocks.now)) }
{
    blocks.iter().all(|block| is_block(block))
}

// ---- points

/// Whether numbers are those of variables of the function.
fn are_variables(function: &MapFunction, variables: &[u32]) -> bool
    ensures { Decides result (All (λ v. v < length (function_of function.now).variables) variables.now) }
{
    variables
        .iter()
        .all(|variable| (*variable as usize) < function.vars.len())
}

/// There are four areas: a fact for callers.
fn are_four(areas: &[Area; 4])
    ensures { length areas.now ≡ 4 }
{
    let _ = areas;
}

/// Whether a function may have a point, where no variable is spilled there twice.
fn is_point_but_spilled(file: &MapFile, function: &MapFunction, point: &MapPoint) -> bool
    ensures right { result ≡ true → IsDistinct point.now.spilled.items
        → IsMapPoint (map_of file.now) (function_of function.now) (point_of point.now) }
    ensures wrong { IsMapPoint (map_of file.now) (function_of function.now) (point_of point.now) → result ≡ true }
{
    is_word(point.number);
    is_word(point.address);
    are_four(&point.areas);
    if !is_op(file, function, &point.op) {
        return false;
    }
    if !are_pieces(function, point.pieces.as_slice()) {
        return false;
    }
    if !are_standings(function, point.before.as_slice()) {
        return false;
    }
    let after = are_standings(function, point.after.as_slice());
    if !after {
        return false;
    }
    are_variables(function, point.spilled.as_slice())
}

/// Whether a function may have a point. The only refusal is want of memory.
fn is_point(
    file: &MapFile,
    function: &MapFunction,
    spare: &mut Vec<u32>,
    point: &MapPoint,
) -> Result<bool, NoMemory>
    ensures { IfOk result (λ is. Decides is
        (IsMapPoint (map_of file.now) (function_of function.now) (point_of point.now))) }
{
    if !is_point_but_spilled(file, function, point) {
        return Ok(false);
    }
    let distinct = are_all_distinct(spare, point.spilled.as_slice())?;
    Ok(distinct)
}

/// Whether a function may have each of these points. The only refusal is want of memory.
fn are_points(
    file: &MapFile,
    function: &MapFunction,
    spare: &mut Vec<u32>,
    points: &[MapPoint],
) -> Result<bool, NoMemory>
    ensures { IfOk result (λ are. Decides are
        (All (IsMapPoint (map_of file.now) (function_of function.now)) (map point_of points.now))) }
{
    for point in points {
        let fine = is_point(file, function, spare, point)?;
        if !fine {
            return Ok(false);
        }
    }
    Ok(true)
}

/// Whether a function may have each point of its blocks. The only refusal is want of memory.
pub(crate) fn are_points_of(
    file: &MapFile,
    function: &MapFunction,
    spare: &mut Vec<u32>,
) -> Result<bool, NoMemory>
    ensures { IfOk result (λ are. Decides are
        (All (IsMapPoint (map_of file.now) (function_of function.now)) (points_of (function_of function.now)))) }
{
    for block in function.blocks.iter() {
        let fine = are_points(file, function, spare, block.points.as_slice())?;
        if !fine {
            return Ok(false);
        }
    }
    Ok(true)
}

// ---- numbers

/// Puts the numbers of points at the end. The only refusal is want of memory.
fn push_numbers(numbers: &mut Vec<u32>, points: &[MapPoint]) -> Result<(), NoMemory>
    ensures { OnOk result (
        numbers.new.items ≡ numbers.old.items ++ map (λ p. p.number) (map point_of points.now)) }
{
    for point in points {
        numbers.push(point.number)?;
    }
    Ok(())
}

/// Whether no two points of a function have one number; `numbers` is used for them all. The only refusal is want of
/// memory.
pub(crate) fn have_distinct_numbers(
    numbers: &mut Vec<u32>,
    function: &MapFunction,
) -> Result<bool, NoMemory>
    ensures { IfOk result (λ distinct. Decides distinct
        (IsDistinct (map (λ p. p.number) (points_of (function_of function.now))))) }
{
    numbers.clear();
    for block in function.blocks.iter() {
        push_numbers(numbers, block.points.as_slice())?;
    }
    Ok(are_distinct(numbers))
}
