//! What a program is lowered to.

use flow_graph::Graph;
use pcc_base::DataObject;

/// The graphs of a program's functions and its static objects, by their numbers, and the number of the
/// function `main`.
#[derive(Drop)]
pub struct Graphs {
    pub functions: Vec<Graph>,
    pub objects: Vec<DataObject>,
    pub main: u32,
}
