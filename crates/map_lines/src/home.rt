//! Where the variables of a function stand.

use allocator::Elementary;
use puzzle_board::PointMap;

/// The graph of a function with what is live in it, and where its variables stand at each point.
#[derive(Drop)]
pub struct Home {
    pub form: Elementary,
    pub places: PointMap,
}
