/// An operator between two operands (C99 6.5.5 to 6.5.14, 6.5.17).
#[derive(Clone, Copy, Debug)]
pub enum BinaryOp {
    Multiply,
    Divide,
    Remainder,
    Add,
    Subtract,
    ShiftLeft,
    ShiftRight,
    Less,
    Greater,
    LessEqual,
    GreaterEqual,
    Equal,
    NotEqual,
    BitAnd,
    BitXor,
    BitOr,
    LogicalAnd,
    LogicalOr,
    /// The comma operator, whose node is that of the rule `expression`.
    Comma,
}

/// An operator before its operand (C99 6.5.3).
#[derive(Clone, Copy, Debug)]
pub enum UnaryOp {
    AddressOf,
    Dereference,
    Plus,
    Minus,
    Complement,
    Not,
}

/// `++` and `--` (C99 6.5.2.4, 6.5.3.1).
#[derive(Clone, Copy, Debug)]
pub enum StepOp {
    Increment,
    Decrement,
}

/// An assignment operator (C99 6.5.16).
#[derive(Clone, Copy, Debug)]
pub enum AssignOp {
    Assign,
    Multiply,
    Divide,
    Remainder,
    Add,
    Subtract,
    ShiftLeft,
    ShiftRight,
    BitAnd,
    BitXor,
    BitOr,
}

/// A word of the declaration specifiers (C99 6.7).
#[derive(Clone, Copy)]
pub enum SpecifierWord {
    Auto,
    Register,
    Static,
    Extern,
    Const,
    Void,
    Char,
    Short,
    Int,
    Signed,
}
