//! Where lines stand: a function of a program, and its variables.

ghost use Rattle.std.specs.Prelude.{◌≡◌, map};
ghost use Rattle.c_tree.specs.Erased.{function_of};
ghost use Rattle.lower_lines.specs.Variables.{local_variables};
ghost use Rattle.lower_builder.specs.Spots.{spot_of, spots_from};

use crate::spot::Spot;
use c_tree::{Function, Program};
use std::alloc::Global;

/// A function of a program, the variables of its locals, and its first temporary.
#[derive(Drop)]
pub struct Site<'a> {
    pub alloc: Global,
    pub program: &'a Program,
    pub function: &'a Function,
    pub spots: Vec<Spot>,
    pub first: u32,
    ghost counted: { first ≡ local_variables (function_of function.now) },
    ghost listed: { map spot_of spots.items ≡ spots_from 0 (function_of function.now).locals },
}
