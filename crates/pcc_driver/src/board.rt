//! `board`: the sources are compiled, and their map is put on the output.

ghost use Rattle.std.specs.Prelude.{◌≤◌, ℕ, map, length};
ghost use Rattle.c_tree.specs.Erased.{program_of};
ghost use Rattle.pcc_outside.specs.Files.{StoreCounts};
ghost use Rattle.pcc_driver.specs.Answers.{MapTold, ProgramPut};
ghost use Rattle.pcc_driver.specs.Causes.{FilesCause, StreamsCause};
ghost use Rattle.pcc_driver.specs.Outside.{SameFiles, output_of};
ghost use Rattle.pcc_driver.specs.Programs.{IsTyped};

use crate::answered::put_answer;
use crate::report::Report;
use crate::typed_sources::program_of_sources;
use c_tree::Program;
use pcc_base::NoMemory;
use pcc_outside::{FileStore, Sink};
use pcc_program::{compile_program, programs_are_ready};
use std::alloc::Global;

/// Compiles a typed program, and puts the text of its map on the output.
fn put_map<O: Sink>(alloc: Global, program: &Program, out: &mut O) -> Report
    requires { IsTyped (program_of program.now) }
    // It speaks of no file and no input.
    ensures files { (counts : StoreCounts) → FilesCause result counts counts }
    ensures streams { (input : ℕ) → StreamsCause result input input (O.counts out.old) (O.counts out.new) }
    ensures telling { O.tells out.old → O.tells out.new }
    ensures put { ProgramPut (output_of O.Sink out.old) (output_of O.Sink out.new) result (program_of program.now) }
{
    programs_are_ready();
    match compile_program(alloc, program) {
        Ok(products) => put_answer(products.map.as_slice(), out),
        Err(NoMemory) => Report::NoMemory,
    }
}

/// Reads the sources, compiles them, and puts the text of their map on the output. No file is changed.
pub fn board<F: FileStore, O: Sink>(
    alloc: Global,
    sources: &[&str],
    files: &mut F,
    out: &mut O,
) -> Report
    requires few { length sources.now ≤ 16 }
    ensures files_cause { FilesCause result (F.counts files.old) (F.counts files.new) }
    // It speaks of no input.
    ensures streams { (input : ℕ) → StreamsCause result input input (O.counts out.old) (O.counts out.new) }
    ensures files_tell { F.tells files.old → F.tells files.new }
    ensures out_tells { O.tells out.old → O.tells out.new }
    ensures same { F.tells files.old → SameFiles (F.content files.old) (F.content files.new) }
    ensures told { F.tells files.old →
        MapTold (F.content files.old) (map (λ s. s.now) sources.now) (output_of O.Sink out.old)
        (output_of O.Sink out.new) result }
{
    match program_of_sources(alloc, sources, files) {
        Ok(program) => put_map(alloc, &program, out),
        Err(report) => report,
    }
}
