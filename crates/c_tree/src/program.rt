//! Functions and programs (C99 6.9).

use crate::statement::Statement;
use crate::types::{IntegerType, ValueType};
use pcc_base::Name;

/// An object of static storage: the type of its elements, of which a scalar has one, and their first
/// values.
#[derive(Drop)]
pub struct StaticObject {
    pub element: IntegerType,
    pub elements: Vec<i32>,
}

/// A local of a function that is no array; parameters are the first ones.
#[derive(Drop)]
pub struct Local {
    pub name: Name,
    pub of: ValueType,
}

/// An array of a function that isn't static.
#[derive(Drop)]
pub struct LocalArray {
    pub name: Name,
    pub element: IntegerType,
    pub count: u32,
}

/// A defined function.
#[derive(Drop)]
pub struct Function {
    pub name: Name,
    pub result: ValueType,
    /// How many of the locals are parameters.
    pub parameters: u32,
    /// In the order of their declarations, as are the arrays.
    pub locals: Vec<Local>,
    pub arrays: Vec<LocalArray>,
    pub body: Vec<Statement>,
}

/// A typed program.
#[derive(Drop)]
pub struct Program {
    /// Objects of static storage and string literals, in the order of their first places in the text.
    pub objects: Vec<StaticObject>,
    /// In the order of their definitions.
    pub functions: Vec<Function>,
    /// The number of the function `main`.
    pub main: u32,
}
