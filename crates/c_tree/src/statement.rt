//! Statements and declared items (C99 6.7 and 6.8). Each statement that is no block, and each declared
//! item that isn't static, has its number: they are numbered together from 0 in the order of the text.

ghost use Rattle.std.specs.Prelude.{◌≡◌, IfOk, option_map};
ghost use Rattle.c_tree.specs.Erased.{boxed_of, first_of, statement_of};
ghost use Rattle.c_tree.specs.Program as typed;

use crate::expression::Expression;
use crate::types::IntegerType;
use pcc_base::{NoMemory, boxed};
use std::alloc::Global;

/// What an array of a function holds at first (C99 6.7.8); the rest of it is zero.
#[derive(Drop)]
pub enum Initialiser {
    /// The first elements, in order.
    List(Vec<Expression>),
    /// The elements of a static object, that of a string literal.
    Text(u32),
}

/// A declared item of a block or of a `for`, with its number.
#[derive(Drop)]
pub enum Item {
    /// A local that is no array, by its number, and its initialiser.
    Scalar(u32, u32, Option<Box<Expression>>),
    /// An array of the function, by its number, the type of its elements, and what it holds at first.
    Array(u32, u32, IntegerType, Initialiser),
}

/// The first part of a `for` (C99 6.8.5.3).
#[derive(Drop)]
pub enum First {
    Nothing,
    Expression(Box<Expression>),
    Items(Vec<Item>),
}

/// A label of a switch: the value of a `case`, or None for `default`, and the number of statements of the
/// switch that stand before it (C99 6.8.1).
#[derive(Clone, Copy)]
pub struct Label {
    pub value: Option<i32>,
    pub before: u32,
}

/// A statement (C99 6.8). All but blocks have their number first. Its expressions are in boxes, so that it takes little
/// room.
#[derive(Drop)]
pub enum Statement {
    Declare(Item),
    Empty(u32),
    Expression(u32, Box<Expression>),
    Block(Vec<Statement>),
    /// An `if`; an `else` that isn't there is an empty block.
    If(u32, Box<Expression>, Box<Statement>, Box<Statement>),
    While(u32, Box<Expression>, Box<Statement>),
    Do(u32, Box<Statement>, Box<Expression>),
    /// A `for`: its first part, its test, what follows each turn, and its body.
    For(u32, First, Option<Box<Expression>>, Option<Box<Expression>>, Box<Statement>),
    Switch(u32, Box<Expression>, Vec<Label>, Vec<Statement>),
    Break(u32),
    Continue(u32),
    Return(u32, Option<Box<Expression>>),
}

impl Statement {
    /// `if (test) first else second`.
    pub fn if_else(
        alloc: Global,
        number: u32,
        test: Box<Expression>,
        first: Statement,
        second: Statement,
    ) -> Result<Self, NoMemory>
        ensures { IfOk result (λ s.
            statement_of s
            ≡ typed.If number (boxed_of test) (statement_of first) (statement_of second)) }
    {
        let (first, (test, second)) = boxed(alloc, first, (test, second))?;
        let (second, (test, first)) = boxed(alloc, second, (test, first))?;
        Ok(Statement::If(number, test, first, second))
    }

    /// `while (test) body`.
    pub fn while_loop(
        alloc: Global,
        number: u32,
        test: Box<Expression>,
        body: Statement,
    ) -> Result<Self, NoMemory>
        ensures { IfOk result (λ s.
            statement_of s ≡ typed.While number (boxed_of test) (statement_of body)) }
    {
        let (body, test) = boxed(alloc, body, test)?;
        Ok(Statement::While(number, test, body))
    }

    /// `do body while (test);`.
    pub fn do_loop(
        alloc: Global,
        number: u32,
        body: Statement,
        test: Box<Expression>,
    ) -> Result<Self, NoMemory>
        ensures { IfOk result (λ s.
            statement_of s ≡ typed.Do number (statement_of body) (boxed_of test)) }
    {
        let (body, test) = boxed(alloc, body, test)?;
        Ok(Statement::Do(number, body, test))
    }

    /// `for (first; test; after) body`.
    pub fn for_loop(
        alloc: Global,
        number: u32,
        first: First,
        test: Option<Box<Expression>>,
        after: Option<Box<Expression>>,
        body: Statement,
    ) -> Result<Self, NoMemory>
        ensures { IfOk result (λ s.
            statement_of s
            ≡ typed.For number (first_of first) (option_map boxed_of test)
            (option_map boxed_of after) (statement_of body)) }
    {
        let (body, (first, test, after)) = boxed(alloc, body, (first, test, after))?;
        Ok(Statement::For(number, first, test, after, body))
    }
}
