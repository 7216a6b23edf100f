//! The text of a map.

ghost use Rattle.std.specs.Prelude.{◌≡◌, ◌≤◌, ◌++◌, ◌^◌, IfOk, OnOk, flat_map, length, map};
ghost use Rattle.map_text.specs.Entries as entries;
ghost use Rattle.map_text.specs.Views.{named_of};
ghost use Rattle.map_text.specs.Words.{
  array_lines,
  block_lines,
  function_lines,
  line_text,
  map_text,
  numbered,
  object_lines,
  point_lines,
  variable_lines,
};
ghost use Rattle.map_file.specs.Numbered.{IsNumbered};
ghost use Rattle.map_file.specs.Views.{
  array_of,
  block_of,
  function_of,
  map_of,
  name_of,
  object_of,
  point_of,
  variable_of,
};

use crate::file::{MapArray, MapBlock, MapFile, MapFunction, MapName, MapObject, MapPoint, MapVar};
use map_text::{
    Named, push_after, push_array, push_before, push_block, push_board, push_end, push_function,
    push_object, push_point, push_spilled, push_title, push_variable,
};
use pcc_base::NoMemory;
use std::alloc::Global;

// ---- objects, arrays and variables

/// Puts the line of a static object at the end, which has this number.
#[tactic(auto, using(crate::proofs::Texts::one_put))]
fn print_object(out: &mut Vec<u8>, number: u32, object: MapObject) -> Result<(), NoMemory>
    ensures { OnOk result (
        out.new.items ≡ out.old.items ++ flat_map line_text (object_lines number (object_of object))) }
{
    let bytes = u32::from(object.bytes);
    push_object(out, number, object.address, object.count, bytes)?;
    Ok(())
}

/// Puts the lines of static objects at the end.
fn print_objects(out: &mut Vec<u8>, objects: &[MapObject]) -> Result<(), NoMemory>
    requires { length objects.now ≤ 2 ^ 32 }
    ensures { OnOk result (
        out.new.items
        ≡ out.old.items ++ flat_map line_text (numbered object_lines 0 (map object_of objects.now))) }
{
    for (number, object) in objects.iter().enumerate() {
        print_object(out, number as u32, *object)?;
    }
    Ok(())
}

/// How far below EBP an offset is; 0 where it isn't.
fn below(offset: i32) -> u32
    ensures { result ≡ entries.below offset }
{
    if offset < 0 { offset.unsigned_abs() } else { 0 }
}

/// Puts the line of a frame array at the end, which has this number.
#[tactic(auto, using(crate::proofs::Texts::one_put))]
fn print_array(out: &mut Vec<u8>, number: u32, array: MapArray) -> Result<(), NoMemory>
    ensures { OnOk result (
        out.new.items ≡ out.old.items ++ flat_map line_text (array_lines number (array_of array))) }
{
    let bytes = u32::from(array.bytes);
    push_array(out, number, below(array.offset), array.count, bytes)?;
    Ok(())
}

/// Puts the lines of frame arrays at the end.
fn print_arrays(out: &mut Vec<u8>, arrays: &[MapArray]) -> Result<(), NoMemory>
    requires { length arrays.now ≤ 2 ^ 32 }
    ensures { OnOk result (
        out.new.items ≡ out.old.items ++ flat_map line_text (numbered array_lines 0 (map array_of arrays.now))) }
{
    for (number, array) in arrays.iter().enumerate() {
        print_array(out, number as u32, *array)?;
    }
    Ok(())
}

/// What a line says of a variable's name.
fn named(name: &MapName) -> Result<Named, NoMemory>
    ensures { IfOk result (λ named. named_of named ≡ name_of name.now) }
{
    Ok(match name {
        MapName::Scalar(name) => Named::Scalar(name.copy()?),
        MapName::Base(name) => Named::Array(name.copy()?),
        MapName::Index(name) => Named::Index(name.copy()?),
        MapName::Temporary => Named::Temporary,
    })
}

/// Puts the line of a variable at the end, which has this number.
#[tactic(auto, using(crate::proofs::Texts::one_put))]
fn print_variable(out: &mut Vec<u8>, number: u32, variable: &MapVar) -> Result<(), NoMemory>
    ensures { OnOk result (
        out.new.items ≡ out.old.items ++ flat_map line_text (variable_lines number (variable_of variable.now))) }
{
    let name = named(&variable.name)?;
    push_variable(out, number, variable.width, &name)?;
    Ok(())
}

/// Puts the lines of variables at the end.
fn print_variables(out: &mut Vec<u8>, variables: &[MapVar]) -> Result<(), NoMemory>
    requires { length variables.now ≤ 2 ^ 32 }
    ensures { OnOk result (
        out.new.items
        ≡ out.old.items ++ flat_map line_text (numbered variable_lines 0 (map variable_of variables.now))) }
{
    for (number, variable) in variables.iter().enumerate() {
        print_variable(out, number as u32, variable)?;
    }
    Ok(())
}

// ---- blocks

/// Puts the lines of a point at the end.
fn print_point(out: &mut Vec<u8>, point: &MapPoint) -> Result<(), NoMemory>
    ensures { OnOk result (out.new.items ≡ out.old.items ++ flat_map line_text (point_lines (point_of point.now))) }
{
    push_point(out, point.number, point.address, &point.op)?;
    push_board(out, &point.areas, point.pieces.as_slice())?;
    push_before(out, point.before.as_slice())?;
    push_after(out, point.after.as_slice())?;
    push_spilled(out, point.spilled.as_slice())?;
    Ok(())
}

/// Puts the lines of points at the end.
fn print_points(out: &mut Vec<u8>, points: &[MapPoint]) -> Result<(), NoMemory>
    ensures { OnOk result (
        out.new.items ≡ out.old.items ++ flat_map line_text (flat_map point_lines (map point_of points.now))) }
{
    for point in points {
        print_point(out, point)?;
    }
    Ok(())
}

/// Puts the lines of a block at the end, which has this number.
fn print_block(out: &mut Vec<u8>, number: u32, block: &MapBlock) -> Result<(), NoMemory>
    ensures { OnOk result (
        out.new.items ≡ out.old.items ++ flat_map line_text (block_lines number (block_of block.now))) }
{
    push_block(out, number)?;
    print_points(out, block.points.as_slice())?;
    Ok(())
}

/// Puts the lines of blocks at the end.
fn print_blocks(out: &mut Vec<u8>, blocks: &[MapBlock]) -> Result<(), NoMemory>
    requires { length blocks.now ≤ 2 ^ 32 }
    ensures { OnOk result (
        out.new.items ≡ out.old.items ++ flat_map line_text (numbered block_lines 0 (map block_of blocks.now))) }
{
    for (number, block) in blocks.iter().enumerate() {
        print_block(out, number as u32, block)?;
    }
    Ok(())
}

// ---- functions and maps

/// Puts the lines of a function at the end, which has this number.
fn print_function(out: &mut Vec<u8>, number: u32, function: &MapFunction) -> Result<(), NoMemory>
    requires arrays { length function.now.arrays.items ≤ 2 ^ 32 }
    requires variables { length function.now.vars.items ≤ 2 ^ 32 }
    requires blocks { length function.now.blocks.items ≤ 2 ^ 32 }
    ensures { OnOk result (
        out.new.items ≡ out.old.items ++ flat_map line_text (function_lines number (function_of function.now))) }
{
    push_function(out, number, &function.name, function.frame)?;
    print_arrays(out, function.arrays.as_slice())?;
    print_variables(out, function.vars.as_slice())?;
    print_blocks(out, function.blocks.as_slice())?;
    Ok(())
}

/// The text of a map, whose parts are few enough to have numbers. The only refusal is want of memory.
pub fn print_map(alloc: Global, map: &MapFile) -> Result<Vec<u8>, NoMemory>
    requires { IsNumbered (map_of map.now) }
    ensures { IfOk result (λ text. text.items ≡ map_text (map_of map.now)) }
{
    let mut out = Vec::new(alloc);
    push_title(&mut out)?;
    print_objects(&mut out, map.objects.as_slice())?;
    for (number, function) in map.functions.iter().enumerate() {
        print_function(&mut out, number as u32, function)?;
    }
    push_end(&mut out)?;
    Ok(out)
}
