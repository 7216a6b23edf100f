//! The lines of a map.

use flow_graph::Op;
use map_file::{MapArray, MapObject, MapVar};
use pcc_base::Name;
use puzzle_board::{Area, Piece, Place};

/// A line of a map.
#[derive(Drop)]
pub enum Line {
    /// The first line.
    Title,
    /// A static object, with its number.
    Object(u32, MapObject),
    /// The number of a function, its name, and the bytes of its frame. The lines up to the next function are this
    /// one's.
    Function(u32, Name, u32),
    /// A frame array, with its number.
    Array(u32, MapArray),
    /// A variable, with its number.
    Variable(u32, MapVar),
    /// The number of a block. The points up to the next block are this one's.
    Block(u32),
    /// The number of a point, its address, and its op.
    Point(u32, u32, Op),
    /// The board of the point above: its areas, and its pieces.
    Board([Area; 4], Vec<Piece>),
    /// Where variables stand before the point above.
    Before(Vec<(u32, Place)>),
    /// Where variables stand after the point above.
    After(Vec<(u32, Place)>),
    /// The variables that are spilled at the point above.
    Spilled(Vec<u32>),
    /// The last line.
    End,
}
