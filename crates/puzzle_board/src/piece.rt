use pcc_base::Width;

/// When a piece's variable is live at a point: an X is read there for the last time and takes the upper row, a Z is
/// defined there and takes the lower row, and a Y lives through and takes the same columns of both rows.
#[derive(Clone, Copy)]
pub enum Kind {
    X,
    Y,
    Z,
}

/// A piece of a board: a variable's part in one instruction. One of width Two takes both columns of one area.
#[derive(Clone, Copy)]
pub struct Piece {
    pub kind: Kind,
    pub width: Width,
    pub var: u32,
}

/// The columns of an area that a piece takes.
#[derive(Clone, Copy, Debug, PartialEq, Eq)]
pub enum Columns {
    Low,
    High,
    All,
}

/// Where a piece stands.
#[derive(Clone, Copy, Debug, PartialEq, Eq)]
pub struct Spot {
    pub area: u32,
    pub columns: Columns,
}

/// What has become of a piece of a board.
#[derive(Clone, Copy)]
pub enum State {
    Unplaced,
    At(Spot),
    /// Its variable was removed from the puzzle.
    Removed,
}
