//! The tree of a map.

use flow_graph::Op;
use pcc_base::{Name, Width};
use puzzle_board::{Area, Piece, Place};

/// A map. Its objects and functions are numbered from 0 in order.
#[derive(Drop)]
pub struct MapFile {
    pub objects: Vec<MapObject>,
    pub functions: Vec<MapFunction>,
}

/// A static object.
#[derive(Clone, Copy)]
pub struct MapObject {
    /// The address of its element 0.
    pub address: u32,
    /// Its elements.
    pub count: u32,
    /// The bytes of an element.
    pub bytes: u8,
}

/// A function. Its arrays, variables and blocks are numbered from 0 in order.
#[derive(Drop)]
pub struct MapFunction {
    pub name: Name,
    /// The bytes of its frame.
    pub frame: u32,
    pub arrays: Vec<MapArray>,
    pub vars: Vec<MapVar>,
    pub blocks: Vec<MapBlock>,
}

/// A frame array.
#[derive(Clone, Copy)]
pub struct MapArray {
    /// Where its element 0 is, from EBP.
    pub offset: i32,
    /// Its elements.
    pub count: u32,
    /// The bytes of an element.
    pub bytes: u8,
}

/// A variable of a function's graph.
#[derive(Drop)]
pub struct MapVar {
    pub width: Width,
    pub name: MapName,
}

/// What a variable is: a scalar local of that name, the array or the index of a pointer local, or a temporary.
#[derive(Drop)]
pub enum MapName {
    Scalar(Name),
    Base(Name),
    Index(Name),
    Temporary,
}

/// A block: its points in order.
#[derive(Drop)]
pub struct MapBlock {
    pub points: Vec<MapPoint>,
}

/// A point of the graph.
#[derive(Drop)]
pub struct MapPoint {
    pub number: u32,
    /// The address of its first instruction.
    pub address: u32,
    pub op: Op,
    /// Which cells of each area of its board are free.
    pub areas: [Area; 4],
    /// The pieces of its board.
    pub pieces: Vec<Piece>,
    /// Where the variables stand that are live before it.
    pub before: Vec<(u32, Place)>,
    /// Where the variables stand that are live after it or defined there.
    pub after: Vec<(u32, Place)>,
    /// The variables that are spilled there.
    pub spilled: Vec<u32>,
}
