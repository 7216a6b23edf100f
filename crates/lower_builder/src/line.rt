//! One line.

use flow_graph::Op;

/// A line of a function.
#[derive(Drop)]
pub enum Line {
    /// The ops that follow stand in this block.
    Start(u32),
    /// An op, at the next point.
    Emit(Op),
}
