//! Whether a tree keeps the rules of a map.

ghost use Rattle.std.specs.Prelude.{◌≡◌, All, IfOk, map, true};
ghost use Rattle.std.specs.Bool.{Decides};
ghost use Rattle.flow_graph.specs.Graphs.{IsDistinct};
ghost use Rattle.map_text.specs.Maps.{Map, points_of};
ghost use Rattle.map_text.specs.Rules.{IsMap, IsMapFunction, IsMapPoint};
ghost use Rattle.map_file.specs.Numbered.{HasNumberedParts};
ghost use Rattle.map_file.specs.Views.{function_of, map_of};

use crate::file::{MapFile, MapFunction};
use crate::names::is_name;
use crate::ops::is_word;
use crate::parts::{are_arrays, are_objects, are_variables};
use crate::points::{are_blocks, are_points_of, have_distinct_numbers};
use pcc_base::NoMemory;
use std::alloc::Global;

/// How many numbers of 32 bits there are.
const NUMBERS: usize = 4294967296;

/// Whether the parts of a function are few enough to have numbers of 32 bits.
fn has_numbered_parts(function: &MapFunction) -> bool
    ensures { Decides result (HasNumberedParts (function_of function.now)) }
{
    function.arrays.len() <= NUMBERS
        && function.vars.len() <= NUMBERS
        && function.blocks.len() <= NUMBERS
}

/// Whether a map may have a function, where it may have each of its points and no two of these have one number.
fn has_parts(function: &MapFunction) -> bool
    ensures right { result ≡ true → (m : Map) → All (IsMapPoint m (function_of function.now)) (points_of (function_of function.now))
        → IsDistinct (map (λ p. p.number) (points_of (function_of function.now)))
        → IsMapFunction m (function_of function.now) }
    ensures wrong { (m : Map) → IsMapFunction m (function_of function.now) → result ≡ true }
{
    is_word(function.frame);
    if !has_numbered_parts(function) {
        return false;
    }
    if !is_name(function.name.as_bytes()) {
        return false;
    }
    if !are_arrays(function.arrays.as_slice()) {
        return false;
    }
    if !are_variables(function.vars.as_slice()) {
        return false;
    }
    are_blocks(function.blocks.as_slice())
}

/// Whether a map may have a function. The only refusal is want of memory.
fn is_function(
    file: &MapFile,
    spare: &mut Vec<u32>,
    function: &MapFunction,
) -> Result<bool, NoMemory>
    ensures { IfOk result (λ is. Decides is (IsMapFunction (map_of file.now) (function_of function.now))) }
{
    if !has_parts(function) {
        return Ok(false);
    }
    let distinct = have_distinct_numbers(spare, function)?;
    if !distinct {
        return Ok(false);
    }
    let are = are_points_of(file, function, spare)?;
    Ok(are)
}

/// Whether a tree keeps the rules of a map. The only refusal is want of memory.
pub fn is_map(alloc: Global, file: &MapFile) -> Result<bool, NoMemory>
    ensures { IfOk result (λ is. Decides is (IsMap (map_of file.now))) }
{
    if file.objects.len() > NUMBERS || file.functions.len() > NUMBERS {
        return Ok(false);
    }
    if !are_objects(file.objects.as_slice()) {
        return Ok(false);
    }
    let mut spare = Vec::new(alloc);
    for function in file.functions.iter() {
        let fine = is_function(file, &mut spare, function)?;
        if !fine {
            return Ok(false);
        }
    }
    Ok(true)
}
