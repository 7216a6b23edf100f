/// Where the instructions to a point that follows begin among all instructions of a table, and where they end.
#[derive(Clone, Copy)]
pub struct Stretch {
    pub to: Option<u32>,
    pub start: usize,
    pub end: usize,
}
