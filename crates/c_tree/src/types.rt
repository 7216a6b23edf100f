/// The integer types of the language (C99 6.2.5); `char` is signed. No word of the text names `UnsignedInt` yet.
#[derive(Clone, Copy, PartialEq, Eq)]
pub enum IntegerType {
    /// 8 bits.
    Char,
    /// 16 bits.
    Short,
    /// 32 bits.
    Int,
    /// 32 bits, without a sign; a number of it is held as the signed number with the same bits.
    UnsignedInt,
}

/// The type of an expression, of a local that is no array, or of a function's result (C99 6.2.5).
#[derive(Clone, Copy, PartialEq, Eq)]
pub enum ValueType {
    Void,
    Integer(IntegerType),
    /// A pointer to elements of an integer type.
    Pointer(IntegerType),
}
