use crate::insn::{Cond, Insn};
use crate::register_names::Reg32;

/// A routine of the compiler's own that a program calls, in place of a function of the C library (C99
/// 7.19.7.6, 7.19.7.9 and 7.20.4.3).
#[derive(Clone, Copy, Debug, PartialEq, Eq)]
pub enum Stub {
    Putchar,
    Getchar,
    Exit,
}

/// A piece of a function's code, before its places are known.
#[derive(Clone, Copy, Debug)]
pub enum Item {
    /// An instruction that names no place.
    Plain(Insn),
    /// The place of this label, which is the function's own.
    Label(u32),
    /// The place of the point of that number of the function's graph.
    Point(u32),
    /// A jump to a label.
    JumpTo(u32),
    /// A jump to a label where the condition holds.
    JumpIf(Cond, u32),
    /// A call of the function of that number in the program.
    CallFunction(u32),
    CallStub(Stub),
    /// A jump to the trap of a failed check, always or where the condition holds.
    JumpTrap(Option<Cond>),
    /// The address of element 0 of the static object of that number to a register. The number 4294967295
    /// is the depth word, which counts the calls that are active.
    AddressOf(Reg32, u32),
}
