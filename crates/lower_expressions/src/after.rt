/// Where control goes behind a statement.
#[derive(Clone, Copy)]
pub enum After {
    /// It stays in the open block.
    Here,
    /// It goes to a block.
    To(u32),
    /// The function is left, as one that falls off its end.
    Leaves,
}

/// Where `break` and `continue` go (C99 6.8.6).
#[derive(Clone, Copy)]
pub struct Exits {
    pub breaks: u32,
    pub continues: u32,
}
