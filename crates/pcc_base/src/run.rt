/// How a program traps.
#[derive(Clone, Copy, Debug, PartialEq, Eq)]
pub enum Trap {
    /// A division by zero, or a quotient that doesn't fit.
    Divide,
    /// A check that failed: an access outside an array, a comparison of pointers into different
    /// arrays, or one call too many.
    Check,
}

/// Why the machine has no step.
#[derive(Clone, Copy, Debug)]
pub enum Stop {
    /// The bytes at EIP begin no instruction of the machine.
    Instruction,
    /// No segment allows the access whose first byte is at this address.
    Access(u32),
    /// An instruction reads flags that aren't known.
    Flags,
    /// An interrupt that is no system call of the machine.
    Call,
}

/// How much a variable or a piece of a board takes: one column or byte, or two columns or 32 bits.
#[derive(Clone, Copy)]
pub enum Width {
    One,
    Two,
}
