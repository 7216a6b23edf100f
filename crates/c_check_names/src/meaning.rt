//! What a name means, and what is declared outside functions.

use crate::entity::Entity;
use c_tree::{IntegerType, ValueType};

/// A function's result, and its parameters, of which arrays have become pointers (C99 6.7.5.3p7).
#[derive(Drop)]
pub struct Signature {
    pub result: ValueType,
    pub parameters: Vec<ValueType>,
}

/// What a name means.
#[derive(Drop)]
pub enum Meaning {
    /// A local that is no array, by its number.
    Local(u32, ValueType),
    /// An array of the function, by its number, with the type of its elements.
    LocalArray(u32, IntegerType),
    /// An object of static storage that is no array.
    Object(Entity, IntegerType),
    /// An object of static storage that is an array, with the type of its elements.
    ObjectArray(Entity, IntegerType),
    Function(Entity, Signature),
}

/// The storage word of a declaration, of which there is one at most (C99 6.7.1p2).
#[derive(Clone, Copy)]
pub enum Storage {
    Unsaid,
    Auto,
    Register,
    Static,
    Extern,
}

/// What a declarator says of its name; no type where it is a pointer to `void`, which the language hasn't.
#[derive(Drop)]
pub enum Declared {
    Value(Option<ValueType>),
    /// The type of the elements, and how many there are.
    Array(Option<ValueType>, u32),
    /// The result, and the types of the parameters.
    Function(Option<ValueType>, Vec<ValueType>),
}

/// A declaration outside functions: what it declares, of which type, and whether it has a body or an initialiser.
#[derive(Drop)]
pub struct Outer {
    pub entity: Entity,
    pub declared: Declared,
    pub whole: bool,
}
