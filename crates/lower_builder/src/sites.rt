//! The variables of a function's locals are numbered.

ghost use Rattle.std.specs.Prelude.{◌≡◌, ◌+◌, ◌++◌, ◌∷◌, [], IfOk, length, map};
ghost use Rattle.c_tree.specs.Erased.{function_of, local_of, program_of};
ghost use Rattle.lower_lines.specs.Shown.{local_widths, type_widths};
ghost use Rattle.lower_lines.specs.Variables.{typed_spot};
ghost use Rattle.lower_builder.specs.Sites.{context_of};
ghost use Rattle.lower_builder.specs.Spots.{spot_of, spots_from};

use crate::lines::plus;
use crate::site::Site;
use crate::spot::Spot;
use c_tree::{Function, IntegerType, Local, Program, ValueType};
use pcc_base::NoMemory;
use std::alloc::Global;

/// The variables of a local of a type, from one on.
fn typed_spot(of: ValueType, first: u32) -> Result<Spot, NoMemory>
    ensures { IfOk result (λ spot. spot_of spot ≡ typed_spot of first) }
{
    let number = match of {
        ValueType::Void => first,
        ValueType::Integer(_) => first,
        ValueType::Pointer(_) => plus(first, 1)?,
    };
    Ok(Spot {
        array: first,
        number,
    })
}

/// How many variables a local of a type has.
fn variables_in(of: ValueType) -> u32
    ensures { result ≡ length (type_widths of) }
{
    match of {
        ValueType::Void => 0,
        ValueType::Integer(IntegerType::Char) => 1,
        ValueType::Integer(IntegerType::Short) => 1,
        ValueType::Integer(IntegerType::Int | IntegerType::UnsignedInt) => 1,
        ValueType::Pointer(_) => 2,
    }
}

/// One local more; the first variable behind its own.
fn add_spot(spots: &mut Vec<Spot>, first: u32, of: ValueType) -> Result<u32, NoMemory>
    ensures spots { IfOk result (λ next.
        map spot_of spots.new.items ≡ map spot_of spots.old.items ++ typed_spot of first ∷ []) }
    ensures next { IfOk result (λ next. next ≡ first + length (type_widths of)) }
{
    let spot = typed_spot(of, first)?;
    let next = plus(first, variables_in(of))?;
    spots.push(spot)?;
    Ok(next)
}

/// The variables of locals in order, and the first one behind them.
fn spots_of(alloc: Global, locals: &[Local]) -> Result<(Vec<Spot>, u32), NoMemory>
    ensures listed { IfOk result (λ r. map spot_of r.0.items ≡ spots_from 0 (map local_of locals.now)) }
    ensures counted { IfOk result (λ r. r.1 ≡ length (local_widths (map local_of locals.now))) }
{
    let mut spots = Vec::new(alloc);
    let mut first = 0;
    for local in locals {
        first = add_spot(&mut spots, first, local.of)?;
    }
    Ok((spots, first))
}

impl<'a> Site<'a> {
    /// The lines of this function of the program.
    pub fn new(
        alloc: Global,
        program: &'a Program,
        function: &'a Function,
    ) -> Result<Site<'a>, NoMemory>
        ensures { IfOk result (λ site. context_of site
            ≡ record { program = program_of program.now; function = function_of function.now }) }
    {
        let (spots, first) = spots_of(alloc, function.locals.as_slice())?;
        Ok(Site {
            alloc,
            program,
            function,
            spots,
            first,
        })
    }
}
