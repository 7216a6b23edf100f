//! The text of the map of a program.

ghost use Rattle.std.specs.Prelude.{◌≡◌, ◌++◌, IfOk, OnOk, flat_map, map, slice_index};
ghost use Rattle.c_tree.specs.Erased.{function_of, program_of};
ghost use Rattle.map_lines.specs.MapOf.{function_over, map_of};
ghost use Rattle.map_lines.specs.Printing.{CanPrint, CanPrintAll, address_in, graph_of, home_of};
ghost use Rattle.map_text.specs.Words.{function_lines, line_text, map_text};

use crate::home::Home;
use crate::printed_heads::{print_arrays, print_objects, print_variables};
use crate::printed_points::print_blocks;
use c_tree::{Function, Program};
use map_text::{push_end, push_function, push_title};
use pcc_base::NoMemory;
use std::alloc::Global;

/// Puts the lines of a function at the end, which has this number.
fn print_function(
    alloc: Global,
    out: &mut Vec<u8>,
    number: u32,
    function: &Function,
    home: &Home,
    addresses: &[u32],
) -> Result<(), NoMemory>
    requires { CanPrint (function_of function.now) home.now addresses.now }
    ensures { OnOk result (
        out.new.items
        ≡ out.old.items ++ flat_map line_text (function_lines number (function_over (function_of function.now)
        (graph_of home.now) (home_of home.now) (λ p. slice_index addresses.now p)))) }
{
    push_function(out, number, &function.name, home.places.frame())?;
    print_arrays(out, function.arrays.as_slice(), home)?;
    print_variables(out, function.locals.as_slice(), home.form.graph())?;
    print_blocks(alloc, out, home, addresses)?;
    Ok(())
}

/// The text of the map of a typed program: each function has a home, each of its points an address, and each static
/// object the address of its element 0. The only refusal is want of memory.
pub fn print_map(
    alloc: Global,
    program: &Program,
    homes: &[Home],
    objects: &[u32],
    points: &[Vec<u32>],
) -> Result<Vec<u8>, NoMemory>
    requires { CanPrintAll (program_of program.now) homes.now objects.now (map (λ v. v.items) points.now) }
    ensures { IfOk result (λ text.
        text.items
        ≡ map_text (map_of (program_of program.now) (map graph_of homes.now) (map home_of homes.now) objects.now
        (address_in (map (λ v. v.items) points.now)))) }
{
    let mut out = Vec::new(alloc);
    push_title(&mut out)?;
    print_objects(&mut out, program.objects.as_slice(), objects)?;
    for (number, function) in program.functions.iter().enumerate() {
        let addresses = points[number].as_slice();
        print_function(
            alloc,
            &mut out,
            number as u32,
            function,
            &homes[number],
            addresses,
        )?;
    }
    push_end(&mut out)?;
    Ok(out)
}
