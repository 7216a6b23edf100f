//! The bytes of a frame.

ghost use Rattle.std.specs.Prelude.{◌≡◌, ◌<◌};
ghost use Rattle.flow_graph.specs.Sizes as sizes;
ghost use Rattle.allocator.specs.PointMaps.{bytes_of_arrays};

use flow_graph::Graph;

/// The bytes of a frame array: a word with its element count, and its elements, padded to words.
fn array_bytes(array: (u8, u32)) -> u64
    ensures { result ≡ sizes.array_bytes array }
{
    4 + (array.1 as u64 * array.0 as u64 + 3) / 4 * 4
}

/// The bytes of all frame arrays of a graph.
pub(crate) fn bytes_of_arrays(graph: &Graph) -> u32
    requires { bytes_of_arrays graph.now.arrays < 2147483648 }
    ensures { result ≡ bytes_of_arrays graph.now.arrays }
{
    let mut bytes = 0;
    for array in 0..graph.arrays() {
        bytes += array_bytes(graph.array(array)) as u32;
    }
    bytes
}
