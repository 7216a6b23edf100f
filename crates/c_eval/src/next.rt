//! What an evaluation waits for.

use c_tree::{Function, Statement};

/// What takes a turn: a call of a function whose arguments, so many, are the last values; or a loop, a `while` or `for`
/// before its test, or a `do` before its body.
#[derive(Clone, Copy)]
pub enum Turn<'a> {
    Call(&'a Function, usize),
    Loop(&'a Statement),
}

/// What a task waits for that isn't done.
#[derive(Clone, Copy)]
pub enum Next<'a> {
    /// Nothing: the task is done.
    Nothing,
    /// `getchar` waits for a byte of the input.
    Byte,
    /// `putchar` waits to write.
    Room,
    /// A turn begins.
    Begins(Turn<'a>),
}
