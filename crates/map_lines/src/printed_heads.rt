//! The text of static objects, and of the frame arrays and variables of a function.

ghost use Rattle.std.specs.Prelude.{◌≡◌, ◌≤◌, ◌+◌, ◌++◌, ◌∷◌, [], IfOk, OnOk, drop, flat_map, length, map};
ghost use Rattle.std.specs.List.{AllByRecursion};
ghost use Rattle.c_tree.specs.Erased.{array_of, local_of, object_of};
ghost use Rattle.c_tree.specs.Sizes as sizes;
ghost use Rattle.allocator.specs.PointMaps.{bytes_of_arrays};
ghost use Rattle.flow_graph.specs.Sizes as words;
ghost use Rattle.ia32_placements.specs.Placed.{arrays_in};
ghost use Rattle.lower_lines.specs.Lowering as lowering;
ghost use Rattle.lower_lines.specs.Shown.{local_widths, type_widths};
ghost use Rattle.map_text.specs.Maps.{NamesArray, NamesIndex, NamesScalar};
ghost use Rattle.map_text.specs.Words.{
  VariableLine,
  array_lines,
  line_text,
  numbered,
  object_lines,
  variable_lines,
};
ghost use Rattle.pcc_base.specs.declared.run.Width.TheVariants.{Two};
ghost use Rattle.map_lines.specs.Parts.{arrays_at, local_variables, objects_at, temporary};
ghost use Rattle.map_lines.specs.Printing.{graph_of};

use crate::home::Home;
use c_tree::{IntegerType, Local, LocalArray, StaticObject, ValueType};
use flow_graph::Graph;
use map_text::{Named, push_array, push_object, push_variable};
use pcc_base::{Name, NoMemory, Width};

/// How many bytes a value of a type has.
fn bytes_of(t: IntegerType) -> u32
    ensures { result ≡ sizes.bytes_of t }
{
    match t {
        IntegerType::Char => 1,
        IntegerType::Short => 2,
        IntegerType::Int | IntegerType::UnsignedInt => 4,
    }
}

/// Puts the lines of static objects at the end, where element 0 of each stands at this address.
pub(crate) fn print_objects(
    out: &mut Vec<u8>,
    objects: &[StaticObject],
    addresses: &[u32],
) -> Result<(), NoMemory>
    requires as_many { length addresses.now ≡ length objects.now }
    requires few { length objects.now ≤ 4294967295 }
    requires small { AllByRecursion (λ o. length o.elements.items ≤ 4294967295) objects.now }
    ensures { OnOk result (
        out.new.items
        ≡ out.old.items
        ++ flat_map line_text (numbered object_lines 0 (objects_at (map object_of objects.now) addresses.now))) }
{
    for (number, object) in objects.iter().enumerate() {
        push_object(
            out,
            number as u32,
            addresses[number],
            object.elements.len() as u32,
            bytes_of(object.element),
        )?;
    }
    Ok(())
}

// ---- frame arrays

/// How many bytes a frame array has in a frame, with the word before it.
fn array_bytes(array: &LocalArray) -> u32
    requires { words.array_bytes (lowering.array_of (array_of array.now)) ≤ 16384 }
    ensures { result ≡ words.array_bytes (lowering.array_of (array_of array.now)) }
{
    4 + (array.count * bytes_of(array.element) + 3) / 4 * 4
}

/// Puts the lines of the frame arrays of a function at the end: the word before array 0 is the frame's last, and each
/// further array stands directly above the one before it.
pub(crate) fn print_arrays(
    out: &mut Vec<u8>,
    arrays: &[LocalArray],
    home: &Home,
) -> Result<(), NoMemory>
    requires same { (graph_of home.now).arrays ≡ map lowering.array_of (map array_of arrays.now) }
    requires room { bytes_of_arrays (graph_of home.now).arrays ≤ home.now.places.frame }
    requires small { home.now.places.frame ≤ 16384 }
    ensures { OnOk result (
        out.new.items
        ≡ out.old.items ++ flat_map line_text (numbered array_lines 0
        (arrays_at (map array_of arrays.now) (arrays_in (graph_of home.now) home.now.places)))) }
{
    let mut header = home.places.frame();
    for (number, array) in arrays.iter().enumerate() {
        push_array(
            out,
            number as u32,
            header - 4,
            array.count,
            bytes_of(array.element),
        )?;
        header -= array_bytes(array);
    }
    Ok(())
}

// ---- variables

/// Puts the line of the variable of an integer local at the end.
#[tactic(auto, using(crate::proofs::Texts::one_put))]
fn print_scalar(out: &mut Vec<u8>, number: u32, width: Width, name: &Name) -> Result<(), NoMemory>
    ensures { OnOk result (
        out.new.items
        ≡ out.old.items ++ flat_map line_text (VariableLine number width (NamesScalar name.now) ∷ [])) }
{
    let name = Named::Scalar(name.copy()?);
    push_variable(out, number, width, &name)?;
    Ok(())
}

/// Puts the lines of the two variables of a pointer local at the end: its array and its index.
#[tactic(auto, using(crate::proofs::Texts::two_put))]
fn print_pointer(out: &mut Vec<u8>, number: u32, name: &Name) -> Result<(), NoMemory>
    requires { number + 1 ≤ 4294967295 }
    ensures { OnOk result (
        out.new.items
        ≡ out.old.items
        ++ flat_map line_text (VariableLine number Two (NamesArray name.now)
        ∷ VariableLine (number + 1) Two (NamesIndex name.now)
        ∷ [])) }
{
    let base = Named::Array(name.copy()?);
    push_variable(out, number, Width::Two, &base)?;
    let index = Named::Index(name.copy()?);
    push_variable(out, number + 1, Width::Two, &index)?;
    Ok(())
}

/// Puts the lines of the variables of a local at the end, of which the first has this number.
fn print_local(out: &mut Vec<u8>, number: u32, local: &Local) -> Result<(), NoMemory>
    requires { number + length (type_widths local.now.of) ≤ 4294967295 }
    ensures { OnOk result (
        out.new.items
        ≡ out.old.items ++ flat_map line_text (numbered variable_lines number (local_variables (local_of local.now)))) }
{
    match local.of {
        ValueType::Void => Ok(()),
        ValueType::Integer(IntegerType::Char) => {
            print_scalar(out, number, Width::One, &local.name)
        }
        ValueType::Integer(IntegerType::Short) => {
            print_scalar(out, number, Width::Two, &local.name)
        }
        ValueType::Integer(IntegerType::Int | IntegerType::UnsignedInt) => {
            print_scalar(out, number, Width::Two, &local.name)
        }
        ValueType::Pointer(_) => print_pointer(out, number, &local.name),
    }
}

/// How many variables a local of a type has.
fn variables_in(of: ValueType) -> u32
    ensures { result ≡ length (type_widths of) }
{
    match of {
        ValueType::Void => 0,
        ValueType::Integer(_) => 1,
        ValueType::Pointer(_) => 2,
    }
}

/// Puts the lines of the variables of locals at the end, and answers how many variables there are.
fn print_locals(out: &mut Vec<u8>, locals: &[Local]) -> Result<u32, NoMemory>
    requires { length (local_widths (map local_of locals.now)) ≤ 4294967295 }
    ensures many { IfOk result (λ number. number ≡ length (local_widths (map local_of locals.now))) }
    ensures lines { OnOk result (
        out.new.items
        ≡ out.old.items
        ++ flat_map line_text (numbered variable_lines 0 (flat_map local_variables (map local_of locals.now)))) }
{
    let mut number = 0;
    for local in locals {
        print_local(out, number, local)?;
        number += variables_in(local.of);
    }
    Ok(number)
}

/// Puts the lines of the temporaries of a graph at the end, which are its variables from a number on.
fn print_temporaries(out: &mut Vec<u8>, graph: &Graph, first: u32) -> Result<(), NoMemory>
    requires { first ≤ length graph.now.widths }
    ensures { OnOk result (
        out.new.items
        ≡ out.old.items
        ++ flat_map line_text (numbered variable_lines first (map temporary (drop first graph.now.widths)))) }
{
    for number in first..graph.vars() {
        push_variable(out, number, graph.width(number), &Named::Temporary)?;
    }
    Ok(())
}

/// Puts the lines of the variables of a function at the end: those of its locals, and then the temporaries.
pub(crate) fn print_variables(
    out: &mut Vec<u8>,
    locals: &[Local],
    graph: &Graph,
) -> Result<(), NoMemory>
    requires few { length (local_widths (map local_of locals.now)) ≤ length graph.now.widths }
    requires small { length graph.now.widths ≤ 4294967295 }
    ensures { OnOk result (
        out.new.items
        ≡ out.old.items ++ flat_map line_text (numbered variable_lines 0 (flat_map local_variables
        (map local_of locals.now)
        ++ map temporary (drop (length (local_widths (map local_of locals.now))) graph.now.widths)))) }
{
    let first = print_locals(out, locals)?;
    print_temporaries(out, graph, first)?;
    Ok(())
}
