//! Where the frame arrays of a graph stand over a map.

ghost use Rattle.std.specs.Prelude.{◌≡◌, ◌≤◌, IfOk};
ghost use Rattle.flow_graph.specs.Sizes as sizes;
ghost use Rattle.ia32_placements.specs.Placed.{above_arrays, arrays_in};
ghost use Rattle.ia32_emit.specs.Locations.{slots_of};
ghost use Rattle.ia32_select.specs.Selections.{CanSelect};

use flow_graph::Graph;
use pcc_base::NoMemory;
use puzzle_board::PointMap;
use std::alloc::Global;

/// The offset of each frame array from EBP, and the bytes of the frame above all of them.
#[derive(Drop)]
pub struct FrameArrays {
    pub offsets: Vec<i32>,
    pub above: u32,
}

/// How many bytes an array has in a frame: four for the number of its elements, and these, rounded up to words.
fn array_bytes(array: (u8, u32)) -> u32
    requires { sizes.array_bytes array ≤ 16384 }
    ensures { result ≡ sizes.array_bytes array }
{
    4 + (array.1 * u32::from(array.0) + 3) / 4 * 4
}

/// Where the arrays stand: the header of the first is the frame's last word, and each further array stands above the one
/// before it.
pub fn arrays_of(alloc: Global, graph: &Graph, map: &PointMap) -> Result<FrameArrays, NoMemory>
    requires { CanSelect graph.now map.now }
    ensures offsets { IfOk result (λ arrays. slots_of arrays.offsets.items ≡ arrays_in graph.now map.now) }
    ensures above { IfOk result (λ arrays. arrays.above ≡ above_arrays map.now) }
{
    let mut offsets = Vec::new(alloc);
    let mut header = map.frame();
    for array in 0..graph.arrays() {
        offsets.push(4 - header as i32)?;
        header -= array_bytes(graph.array(array));
    }
    Ok(FrameArrays {
        offsets,
        above: header,
    })
}
