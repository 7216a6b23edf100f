/// What the lines of an expression are asked for.
#[derive(Clone, Copy)]
pub enum Wanted {
    /// Nothing but that it is evaluated.
    Dropped,
    /// Its value in the temporaries of its level.
    Own,
    /// Its value in a local, which none but the last op on each way writes.
    ToLocal(u32),
    /// That control goes to the first block where the value is true, and else to the second.
    Tests(u32, u32),
}
