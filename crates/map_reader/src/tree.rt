//! A map made of its lines, one after another: each is put behind the last open part.

ghost use Rattle.std.specs.Prelude.{◌≡◌, ◌∷◌, [], ◌++◌, OnOk};
ghost use Rattle.map_text.specs.Reading.{in_function, in_last, new_point, with_line};
ghost use Rattle.map_file.specs.Views.{block_of, function_of, map_of, point_of};
ghost use Rattle.map_reader.specs.Parts.{function_put, part_put, with_blocks};
ghost use Rattle.map_reader.specs.Views.{line_of};
ghost use Rattle.map_reader.specs.declared.line.Line.TheVariants.{Array, Block, Function, Object, Variable};

use crate::line::Line;
use flow_graph::Op;
use map_file::{MapArray, MapBlock, MapFile, MapFunction, MapObject, MapPoint, MapVar};
use pcc_base::{Name, NoMemory};
use puzzle_board::{Area, Column};
use std::alloc::Global;

/// An area all of whose cells are free.
const FREE: Area = Area {
    low: Column::Both,
    high: Column::Both,
};

/// A point of which there is only the first line so far.
fn point(alloc: Global, number: u32, address: u32, op: Op) -> MapPoint
    ensures { point_of result ≡ new_point number address op }
{
    MapPoint {
        number,
        address,
        op,
        areas: [FREE, FREE, FREE, FREE],
        pieces: Vec::new(alloc),
        before: Vec::new(alloc),
        after: Vec::new(alloc),
        spilled: Vec::new(alloc),
    }
}

/// Puts a line below a point that is about it.
fn put_part(point: &mut MapPoint, line: Line)
    ensures { point_of point.new ≡ part_put (line_of line) (point_of point.old) }
{
    match line {
        Line::Board(areas, pieces) => {
            point.areas = areas;
            point.pieces = pieces;
        }
        Line::Before(entries) => point.before = entries,
        Line::After(entries) => point.after = entries,
        Line::Spilled(variables) => point.spilled = variables,
        Line::Title | Line::Object(_, _) | Line::Function(_, _, _) => {}
        Line::Array(_, _) | Line::Variable(_, _) | Line::Block(_) => {}
        Line::Point(_, _, _) | Line::End => {}
    }
}

/// Puts a line below a block's last point that is about it.
#[tactic(auto, using(crate::proofs::Trees::last_put, crate::proofs::Trees::none_put))]
fn put_in_point(block: &mut MapBlock, line: Line)
    ensures { block_of block.new ≡ in_last (part_put (line_of line)) (block_of block.old) }
{
    let count = block.points.len();
    if count == 0 {
        return;
    }
    put_part(&mut block.points[count - 1], line);
}

/// Puts a line below the last point of a function's last block that is about it.
fn put_in_block(function: &mut MapFunction, line: Line)
    ensures { function_of function.new ≡ with_blocks (in_last (part_put (line_of line))) (function_of function.old) }
{
    let count = function.blocks.len();
    if count == 0 {
        return;
    }
    put_in_point(&mut function.blocks[count - 1], line);
}

/// Puts a point last into a function's last block.
fn put_point(function: &mut MapFunction, point: MapPoint) -> Result<(), NoMemory>
    ensures { OnOk result (
        function_of function.new
        ≡ with_blocks (λ points. points ++ point_of point ∷ []) (function_of function.old)) }
{
    let count = function.blocks.len();
    if count == 0 {
        return Ok(());
    }
    let block = &mut function.blocks[count - 1];
    block.points.push(point)?;
    Ok(())
}

/// Puts a frame array last.
fn put_array(function: &mut MapFunction, array: MapArray) -> Result<(), NoMemory>
    ensures { OnOk result (
        function_of function.new ≡ function_put (line_of (Array 0 array)) (function_of function.old)) }
{
    function.arrays.push(array)?;
    Ok(())
}

/// Puts a variable last.
fn put_variable(function: &mut MapFunction, variable: MapVar) -> Result<(), NoMemory>
    ensures { OnOk result (
        function_of function.new ≡ function_put (line_of (Variable 0 variable)) (function_of function.old)) }
{
    function.vars.push(variable)?;
    Ok(())
}

/// Puts a block without points last.
fn put_block(alloc: Global, function: &mut MapFunction) -> Result<(), NoMemory>
    ensures { OnOk result (function_of function.new ≡ function_put (line_of (Block 0)) (function_of function.old)) }
{
    let block = MapBlock {
        points: Vec::new(alloc),
    };
    function.blocks.push(block)?;
    Ok(())
}

/// Puts a line below a function that is part of it.
fn put_in_function(alloc: Global, function: &mut MapFunction, line: Line) -> Result<(), NoMemory>
    ensures { OnOk result (function_of function.new ≡ function_put (line_of line) (function_of function.old)) }
{
    match line {
        Line::Array(_, array) => put_array(function, array)?,
        Line::Variable(_, variable) => put_variable(function, variable)?,
        Line::Block(_) => put_block(alloc, function)?,
        Line::Point(number, address, op) => {
            let point = point(alloc, number, address, op);
            put_point(function, point)?;
        }
        Line::Board(areas, pieces) => put_in_block(function, Line::Board(areas, pieces)),
        Line::Before(entries) => put_in_block(function, Line::Before(entries)),
        Line::After(entries) => put_in_block(function, Line::After(entries)),
        Line::Spilled(variables) => put_in_block(function, Line::Spilled(variables)),
        Line::Title | Line::End | Line::Object(_, _) => {}
        Line::Function(_, name, _) => drop(name),
    }
    Ok(())
}

/// Puts a line below a map's last function that is part of it.
fn put_in_last(alloc: Global, map: &mut MapFile, line: Line) -> Result<(), NoMemory>
    ensures { OnOk result (map_of map.new ≡ in_function (function_put (line_of line)) (map_of map.old)) }
{
    let count = map.functions.len();
    if count == 0 {
        return Ok(());
    }
    put_in_function(alloc, &mut map.functions[count - 1], line)?;
    Ok(())
}

/// Puts an object last.
fn put_object(map: &mut MapFile, object: MapObject) -> Result<(), NoMemory>
    ensures { OnOk result (map_of map.new ≡ with_line (map_of map.old) (line_of (Object 0 object))) }
{
    map.objects.push(object)?;
    Ok(())
}

/// Puts a function last of which there is only the first line.
fn put_function(alloc: Global, map: &mut MapFile, name: Name, frame: u32) -> Result<(), NoMemory>
    ensures { OnOk result (map_of map.new ≡ with_line (map_of map.old) (line_of (Function 0 name frame))) }
{
    let function = MapFunction {
        name,
        frame,
        arrays: Vec::new(alloc),
        vars: Vec::new(alloc),
        blocks: Vec::new(alloc),
    };
    map.functions.push(function)?;
    Ok(())
}

/// Puts a line behind those that a map was made of.
pub(crate) fn add_line(alloc: Global, map: &mut MapFile, line: Line) -> Result<(), NoMemory>
    ensures { OnOk result (map_of map.new ≡ with_line (map_of map.old) (line_of line)) }
{
    match line {
        Line::Title | Line::End => {}
        Line::Object(_, object) => put_object(map, object)?,
        Line::Function(_, name, frame) => put_function(alloc, map, name, frame)?,
        Line::Array(number, array) => put_in_last(alloc, map, Line::Array(number, array))?,
        Line::Variable(number, variable) => put_in_last(
            alloc,
            map,
            Line::Variable(number, variable),
        )?,
        Line::Block(number) => put_in_last(alloc, map, Line::Block(number))?,
        Line::Point(number, address, op) => put_in_last(
            alloc,
            map,
            Line::Point(number, address, op),
        )?,
        Line::Board(areas, pieces) => put_in_last(alloc, map, Line::Board(areas, pieces))?,
        Line::Before(entries) => put_in_last(alloc, map, Line::Before(entries))?,
        Line::After(entries) => put_in_last(alloc, map, Line::After(entries))?,
        Line::Spilled(variables) => put_in_last(alloc, map, Line::Spilled(variables))?,
    }
    Ok(())
}
