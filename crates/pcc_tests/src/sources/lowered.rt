//! The outcome of a program: by the source's meaning, and by its graphs.

ghost use Rattle.std.specs.Prelude.{IfOk, List, ℕ, ◌<◌, length};
ghost use Rattle.c_tree.specs.Erased.{program_of};
ghost use Rattle.c_front.specs.Answers.{HaveTypedProgram};

use crate::sources::code::Code;
use crate::sources::machine::{End, Machine};
use c_eval::eval;
use c_eval_state::EvalEnd;
use c_front::{Refused, typed_program};
use c_tree::Program;
use lower::{Graphs, lower};
use pcc_base::NoMemory;
use pcc_outside::{MemSink, MemSource, Source};
use pcc_program::programs_are_ready;
use std::alloc::Global;
use std::process::Abort;

/// The bytes of two texts, one behind the other, which are fewer than 10,000.
fn joined(alloc: Global, before: &str, text: &str) -> Result<Vec<u8>, NoMemory>
    ensures { IfOk result (λ v. length v.items < 10000) }
{
    let mut bytes = before.as_bytes().to_vec(alloc)?;
    bytes.extend_from_slice(text.as_bytes())?;
    if bytes.len() >= 10000 {
        return Err(NoMemory);
    }
    Ok(bytes)
}

/// The typed program of two texts, one behind the other.
pub fn program_of_text(alloc: Global, before: &str, text: &str) -> Result<Program, Refused>
    ensures { IfOk result (λ p. (texts : List (List ℕ)) × HaveTypedProgram texts (program_of p)) }
{
    match joined(alloc, before, text) {
        Ok(bytes) => typed_program(alloc, &[bytes]),
        Err(NoMemory) => Err(Refused::NoMemory),
    }
}

/// The graphs of a typed program.
pub(crate) fn graphs_of_program(alloc: Global, program: &Program) -> Result<Graphs, NoMemory>
    requires { (texts : List (List ℕ)) × HaveTypedProgram texts (program_of program.now) }
{
    programs_are_ready();
    lower(alloc, program)
}

/// The outcome of a run in so many turns, as a text: the first byte of its input that is left, what it has written, and
/// how it ends.
fn shown(
    rt: &impl Abort,
    alloc: Global,
    turns: u64,
    next: Option<u8>,
    written: &[u8],
    end: End,
) -> String {
    let written = std::str::from_utf8(written).expect(rt, "a text");
    format!(in alloc; "{turns} {next:?} => {written} => {end:?}").expect(rt, "an outcome")
}

fn end_of(end: EvalEnd) -> End {
    match end {
        EvalEnd::Ended(status) => End::Ended(status),
        EvalEnd::Trapped(trap) => End::Trapped(trap),
        EvalEnd::TurnsSpent => End::TurnsSpent,
        EvalEnd::ReadFault | EvalEnd::WriteFault => End::Stuck,
        EvalEnd::NoMemory => End::NoMemory,
    }
}

/// The outcome by the source's meaning.
pub fn evaluated(
    rt: &impl Abort,
    alloc: Global,
    program: &Program,
    input: &[u8],
    turns: u64,
) -> String {
    let input = input.to_vec(alloc).expect(rt, "an input");
    let mut source = MemSource::new(input, Vec::new(alloc));
    let mut sink = MemSink::new(alloc, Vec::new(alloc));
    let end = end_of(eval(alloc, program, &mut source, &mut sink, turns));
    let next = source.next_byte().unwrap_or(None);
    shown(rt, alloc, turns, next, sink.taken(), end)
}

/// The outcome by the graphs.
pub fn ran(
    rt: &impl Abort,
    alloc: Global,
    codes: &[Code],
    graphs: &Graphs,
    input: &[u8],
    turns: u64,
) -> String {
    let main = codes.get(graphs.main as usize).expect(rt, "main");
    let objects = graphs.objects.as_slice();
    let begun = Machine::new(alloc, codes, main, objects, input, turns);
    let mut machine = begun.expect(rt, "a machine");
    let end = machine.run();
    let next = machine.input.first().copied();
    shown(rt, alloc, turns, next, machine.written.as_slice(), end)
}
