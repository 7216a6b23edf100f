//! From a typed program to its map and its image, pass by pass.

ghost use Rattle.std.specs.Prelude.{IfOk};
ghost use Rattle.c_tree.specs.Erased.{program_of};
ghost use Rattle.lower.specs.Graphs.{graphs_of};
ghost use Rattle.lower_laws.specs.Lowered.{AreLowered};
ghost use Rattle.pcc_program.specs.Code.{HaveFrames};
ghost use Rattle.pcc_program.specs.Products.{AreProducts};
ghost use Rattle.pcc_program.specs.Programs.{IsCompilable};

use crate::code::graphs_have_frames;
use crate::functions::{homes_of, sections_of};
use crate::linked_laws::linked_does_as;
use crate::ranges::are_bytes;
use c_tree::Program;
use elf_image::write_image;
use elf_link::link;
use lower::{Graphs, lower};
use map_lines::print_map;
use pcc_base::NoMemory;
use std::alloc::Global;

/// What is made of a program: the text of its map, and the bytes of its image.
#[derive(Drop)]
pub struct Products {
    pub map: Vec<u8>,
    pub image: Vec<u8>,
}

/// The graphs of a program, with all that is promised of them.
fn graphs_for(alloc: Global, program: &Program) -> Result<Graphs, NoMemory>
    requires { IsCompilable (program_of program.now) }
    ensures lowered { IfOk result (λ graphs. AreLowered (program_of program.now) (graphs_of graphs)) }
    ensures frames { IfOk result (λ graphs. HaveFrames (graphs_of graphs)) }
{
    graphs_have_frames();
    let graphs = lower(alloc, program)?;
    Ok(graphs)
}

/// The map and the image of a program. The only refusal is want of memory; a number above 32 bits counts as it.
pub fn compile_program(alloc: Global, program: &Program) -> Result<Products, NoMemory>
    requires { IsCompilable (program_of program.now) }
    ensures { IfOk result (λ products. AreProducts (program_of program.now) products.map.items products.image.items) }
{
    let graphs = graphs_for(alloc, program)?;
    let homes = homes_of(alloc, graphs.functions.as_slice())?;
    let sections = sections_of(alloc, homes.as_slice())?;
    let linked = link(alloc, &sections, &graphs.objects, graphs.main)?;
    // What the map and the promise rest on.
    are_bytes(&linked.image.text);
    are_bytes(&linked.image.data_bytes);
    linked_does_as();
    let objects = linked.objects.as_slice();
    let points = linked.points.as_slice();
    let map = print_map(alloc, program, homes.as_slice(), objects, points)?;
    let image = write_image(alloc, &linked.image)?;
    Ok(Products { map, image })
}
