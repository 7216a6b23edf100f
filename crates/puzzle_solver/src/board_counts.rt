//! What a board has, in numbers.

/// How many areas of each kind a board has.
#[derive(Clone, Copy)]
pub struct AreaCounts {
    pub e: u32,
    pub u1: u32,
    pub l1: u32,
    pub c: u32,
    pub u0: u32,
    pub l0: u32,
    pub upper_lower: u32,
    pub upper_none: u32,
    pub lower_none: u32,
}

/// How many unplaced pieces of each kind and width a board has.
#[derive(Clone, Copy)]
pub struct PieceCounts {
    pub x1: u32,
    pub x2: u32,
    pub y1: u32,
    pub y2: u32,
    pub z1: u32,
    pub z2: u32,
}
