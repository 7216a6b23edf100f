//! Variables and frame arrays.

ghost use Rattle.std.specs.Prelude.{◌≡◌, ◌++◌, IfOk, OnOk, map};
ghost use Rattle.c_tree.specs.Erased.{array_of as local_array, function_of, local_of};
ghost use Rattle.c_tree.specs.Sizes.{bytes_of};
ghost use Rattle.lower_lines.specs.Lowering.{array_of};
ghost use Rattle.lower_lines.specs.Shown.{local_widths, type_widths};
ghost use Rattle.lower_lines.specs.Variables.{level_widths, levels_widths, variable_widths};

use crate::heights::statements_height;
use crate::lines::plus;
use c_tree::{Function, IntegerType, Local, LocalArray, ValueType};
use pcc_base::{NoMemory, Width};
use std::alloc::Global;

/// How many bytes a value of a type has.
pub fn bytes_of(t: IntegerType) -> u8
    ensures { result ≡ bytes_of t }
{
    match t {
        IntegerType::Char => 1,
        IntegerType::Short => 2,
        IntegerType::Int | IntegerType::UnsignedInt => 4,
    }
}

/// More widths behind those that there are.
fn add(widths: &mut Vec<Width>, more: &[Width]) -> Result<(), NoMemory>
    ensures { OnOk result (widths.new.items ≡ widths.old.items ++ more.now) }
{
    widths.extend_from_slice(more)?;
    Ok(())
}

/// The widths of the variables of a local.
fn add_type(widths: &mut Vec<Width>, of: ValueType) -> Result<(), NoMemory>
    ensures { OnOk result (widths.new.items ≡ widths.old.items ++ type_widths of) }
{
    match of {
        ValueType::Void => Ok(()),
        ValueType::Integer(IntegerType::Char) => add(widths, &[Width::One]),
        ValueType::Integer(IntegerType::Short | IntegerType::Int | IntegerType::UnsignedInt) => {
            add(widths, &[Width::Two])
        }
        ValueType::Pointer(_) => add(widths, &[Width::Two, Width::Two]),
    }
}

/// The widths of the variables of locals, in order.
fn add_locals(widths: &mut Vec<Width>, locals: &[Local]) -> Result<(), NoMemory>
    ensures { OnOk result (widths.new.items ≡ widths.old.items ++ local_widths (map local_of locals.now)) }
{
    for local in locals {
        add_type(widths, local.of)?;
    }
    Ok(())
}

/// The widths of the temporaries of a level.
fn add_level(widths: &mut Vec<Width>) -> Result<(), NoMemory>
    ensures { OnOk result (widths.new.items ≡ widths.old.items ++ level_widths) }
{
    add(
        widths,
        &[Width::Two, Width::Two, Width::Two, Width::Two, Width::One],
    )
}

/// The widths of the temporaries of so many levels.
fn add_levels(widths: &mut Vec<Width>, levels: u32) -> Result<(), NoMemory>
    ensures { OnOk result (widths.new.items ≡ widths.old.items ++ levels_widths levels) }
{
    for _level in 0..levels {
        add_level(widths)?;
    }
    Ok(())
}

/// The widths of the variables of a function: those of its locals, and then five for each level.
pub fn widths_of(alloc: Global, function: &Function) -> Result<Vec<Width>, NoMemory>
    ensures { IfOk result (λ widths. widths.items ≡ variable_widths (function_of function.now)) }
{
    let levels = plus(statements_height(function.body.as_slice())?, 2)?;
    let mut widths = Vec::new(alloc);
    add_locals(&mut widths, function.locals.as_slice())?;
    add_levels(&mut widths, levels)?;
    Ok(widths)
}

/// The bytes of an element and the counts of frame arrays, in order.
fn list_arrays(alloc: Global, locals: &[LocalArray]) -> Result<Vec<(u8, u32)>, NoMemory>
    ensures { IfOk result (λ arrays. arrays.items ≡ map array_of (map local_array locals.now)) }
{
    let mut arrays = Vec::new(alloc);
    for array in locals {
        arrays.push((bytes_of(array.element), array.count))?;
    }
    Ok(arrays)
}

/// The frame arrays of a function.
pub fn arrays_of(alloc: Global, function: &Function) -> Result<Vec<(u8, u32)>, NoMemory>
    ensures { IfOk result (λ arrays. arrays.items ≡ map array_of (function_of function.now).arrays) }
{
    list_arrays(alloc, function.arrays.as_slice())
}
