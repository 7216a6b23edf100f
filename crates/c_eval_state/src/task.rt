//! What is left to do of a program, and how it is gone through.

use c_operators::Operator;
use c_tree::{
    Expression, Function, IntegerType, Item, Place, Statement, StepOp, UnaryOp, ValueType,
};

/// Something that is left to do; what it takes from the stacks and leaves there stands behind the same words of
/// `specs/Tasks.antt` of `c_eval_laws`. Rows of trees stand with the place of the next one.
#[derive(Clone, Copy)]
pub enum Task<'a> {
    /// An expression.
    Evaluates(&'a Expression),
    /// A place.
    Locates(&'a Place),
    Points,
    Loads,
    LoadsOld,
    Addresses,
    AppliesUnary(IntegerType, UnaryOp),
    AppliesBinary(Operator),
    /// The right side of `&&`, and of `||` (C99 6.5.13 and 6.5.14).
    AndThen(&'a Expression),
    OrElse(&'a Expression),
    Truth,
    Chooses(ValueType, &'a Expression, &'a Expression),
    Converts(ValueType),
    Stores(ValueType),
    Updates(ValueType, Operator),
    Steps(ValueType, StepOp),
    Drops,
    /// A call of a function by its number: its arguments, and how many are evaluated.
    Passes(u32, &'a [Expression], usize),
    Puts,
    Exits,
    Declares(&'a Item),
    DeclaresAll(&'a [Item]),
    Initialises(u32, ValueType),
    /// The elements that an array of the function begins with, and the place of the next one.
    Fills(u32, IntegerType, &'a [Expression], usize),
    /// An element of these at a place, whose value is there, and then those behind it.
    FillsElement(u32, IntegerType, &'a [Expression], usize),
    /// A part of a statement, and statements in order.
    Goes(StatementPart, &'a Statement),
    Follows(&'a [Statement]),
    ReturnsValue(ValueType),
    ReturnsTo(&'a Function),
}

/// How far a statement is: tasks that stand for its parts are named by the whole (C99 6.8).
#[derive(Clone, Copy)]
pub enum StatementPart {
    /// Before all of it.
    Start,
    /// A loop before a turn.
    Turn,
    /// Behind its test, or the value of a `switch`, which is on the stack.
    Test,
    /// Behind its body.
    Body,
}

/// How tasks are gone through: each is done, or they are passed over, up to what a `break` or `continue` leaves (C99
/// 6.8.6.2 and 6.8.6.3), or up to the end of the function (C99 6.8.6.4).
#[derive(Clone, Copy)]
pub enum Way {
    Ahead,
    Breaking,
    Continuing,
    Returning,
}
