ghost use Rattle.std.specs.Prelude.{◌≡◌, ◌≢◌, ◌≤◌, ℕ, List, length, map};
ghost use Rattle.c_tree.specs.Erased.{program_of};
ghost use Rattle.pcc_outside.specs.Streams.{SinkCounts};
ghost use Rattle.pcc_driver.specs.Causes.{FilesCause, StreamsCause};
ghost use Rattle.pcc_driver.specs.Outside.{Files, SameFiles};
ghost use Rattle.pcc_driver.specs.Programs.{HaveTypedProgram, IsTyped};
ghost use Rattle.pcc_driver.specs.Sources.{AreRead};
ghost use Rattle.pcc_driver.specs.Answers.{CompileTold, IsOfWrites, WritesTold, report_of_write};

use crate::report::{Named, Report};
use crate::typed_sources::program_of_sources;
use c_tree::Program;
use pcc_base::NoMemory;
use pcc_outside::{FileStore, WriteRefusal};
use pcc_program::{Products, compile_program, programs_are_ready};
use std::alloc::Global;

/// The report of a refused write.
fn write_report(refusal: WriteRefusal, file: Named) -> Report
    ensures { result ≡ report_of_write refusal file }
{
    match refusal {
        WriteRefusal::Failed => Report::WriteFault(file),
        WriteRefusal::NoMemory => Report::NoMemory,
    }
}

/// Writes NAME.map, and then NAME.
pub(crate) fn write_products<F: FileStore>(
    map_name: &str,
    name: &str,
    products: &Products,
    files: &mut F,
) -> Report
    requires { map_name.now ≢ name.now }
    ensures own { IsOfWrites result }
    ensures cause { FilesCause result (F.counts files.old) (F.counts files.new) }
    ensures streams { (input : ℕ) (out : SinkCounts) → StreamsCause result input input out out }
    ensures telling { F.tells files.old → F.tells files.new }
    ensures told { F.tells files.old →
        WritesTold map_name.now name.now products.now.map.items products.now.image.items
        (F.content files.old) (F.content files.new) result }
{
    if let Err(refusal) = files.write(map_name, products.map.as_slice()) {
        return write_report(refusal, Named::Map);
    }
    if let Err(refusal) = files.write(name, products.image.as_slice()) {
        return write_report(refusal, Named::Image);
    }
    Report::Compiled
}

/// Compiles a typed program, and writes NAME.map, and then NAME.
fn write_program<F: FileStore>(
    alloc: Global,
    name: &str,
    program: &Program,
    files: &mut F,
) -> Report
    requires { IsTyped (program_of program.now) }
    ensures cause { FilesCause result (F.counts files.old) (F.counts files.new) }
    ensures streams { (input : ℕ) (out : SinkCounts) → StreamsCause result input input out out }
    ensures telling { F.tells files.old → F.tells files.new }
    ensures told { F.tells files.old → (before : Files) (sources texts : List (List ℕ))
        → SameFiles before (F.content files.old) → AreRead before sources texts
        → HaveTypedProgram texts (program_of program.now)
        → CompileTold name.now sources before (F.content files.new) result }
{
    programs_are_ready();
    let products = match compile_program(alloc, program) {
        Ok(products) => products,
        Err(NoMemory) => return Report::NoMemory,
    };
    match format!(in alloc; "{name}.map") {
        Ok(map_name) => write_products(map_name.as_str(), name, &products, files),
        Err(_) => Report::NoMemory,
    }
}

/// Reads the sources and writes their map and their image. Nothing is written where an earlier step refuses.
pub fn compile<F: FileStore>(alloc: Global, name: &str, sources: &[&str], files: &mut F) -> Report
    requires few { length sources.now ≤ 16 }
    ensures cause { FilesCause result (F.counts files.old) (F.counts files.new) }
    // It speaks of no input and no output.
    ensures streams { (input : ℕ) (out : SinkCounts) → StreamsCause result input input out out }
    ensures telling { F.tells files.old → F.tells files.new }
    ensures told { F.tells files.old →
        CompileTold name.now (map (λ s. s.now) sources.now) (F.content files.old) (F.content files.new) result }
{
    match program_of_sources(alloc, sources, files) {
        Ok(program) => write_program(alloc, name, &program, files),
        Err(report) => report,
    }
}
