//! `selftest`: the generated program of a number is typed, evaluated, compiled and written, and its image is run.

ghost use Rattle.std.specs.Prelude.{◌≡◌, ◌<◌, ◌+◌, ◌^◌, ℕ, List, [], ◌∷◌, length, MatchResult};
ghost use Rattle.c_front.specs.Answers.{HaveTypedProgram};
ghost use Rattle.c_tree.specs.Erased.{program_of};
ghost use Rattle.pcc_gen.specs.Generated.{generated};
ghost use Rattle.pcc_outside.specs.Files.{StoreCounts};
ghost use Rattle.pcc_driver.specs.Causes.{FilesCause, StreamsCause};
ghost use Rattle.pcc_driver.specs.Outside.{output_of, store_of};
ghost use Rattle.pcc_driver.specs.Programs.{IsTyped, TextsRefused};
ghost use Rattle.pcc_driver.specs.Selftests.{
  GivesNoLine,
  HasEnd,
  ImageTested,
  IsLineOf,
  RunPut,
  SelftestTold,
};

use crate::answered::put_answer;
use crate::compile::write_products;
use crate::report::Report;
use crate::selftest_lines::eval_line;
use crate::selftest_run::line_of_run;
use crate::typed_sources::refused_report;
use c_eval_state::EvalEnd;
use c_front::typed_program;
use c_tree::Program;
use map_lines::map_lists_locals;
use pcc_base::NoMemory;
use pcc_gen::{gen_text, texts_are_short};
use pcc_outside::{FileStore, MemSink, Sink, SureSource};
use pcc_program::{compile_program, programs_are_ready};
use std::alloc::Global;

/// The most turns of the evaluation.
pub(crate) const TURN_LIMIT: u64 = 1_000_000;

/// The most steps of the image.
pub(crate) const STEP_LIMIT: u64 = 1_000_000_000;

/// The typed program of a text, or why it has none.
fn program_of_text(alloc: Global, text: Vec<u8>) -> Result<Program, Report>
    requires small { length text.items + 1 < 2 ^ 32 }
    ensures { MatchResult result (λ program. HaveTypedProgram (text.items ∷ []) (program_of program))
        (TextsRefused (text.items ∷ [])) }
{
    let mut texts = Vec::new(alloc);
    if texts.push(text).is_err() {
        return Err(Report::NoMemory);
    }
    match typed_program(alloc, texts.as_slice()) {
        Ok(program) => Ok(program),
        Err(refused) => Err(refused_report(refused)),
    }
}

/// The typed program of the generated text of the number, or why it has none.
fn generated_program(alloc: Global, number: u32) -> Result<Program, Report>
    ensures { MatchResult result (λ program. HaveTypedProgram (generated number ∷ []) (program_of program))
        (TextsRefused (generated number ∷ [])) }
{
    texts_are_short();
    match gen_text(alloc, number) {
        Ok(text) => program_of_text(alloc, text),
        Err(NoMemory) => Err(Report::NoMemory),
    }
}

/// The line of the evaluation of a program over no input, for so many turns at most, or why there is none. What it reads
/// and writes stands in memory, which refuses nothing but where it is wanting.
fn line_of_evaluation(alloc: Global, program: &Program, turns: u64) -> Result<Vec<u8>, Report>
    ensures { MatchResult result (λ line. IsLineOf turns (program_of program.now) line.items)
        (GivesNoLine turns (program_of program.now)) }
{
    let mut out = MemSink::new(alloc, Vec::new(alloc));
    let mut input = SureSource::new(Vec::new(alloc));
    match c_eval::eval(alloc, program, &mut input, &mut out, turns) {
        EvalEnd::Ended(status) => match eval_line(alloc, out.taken(), status) {
            Ok(line) => Ok(line),
            Err(NoMemory) => Err(Report::NoMemory),
        },
        EvalEnd::Trapped(trap) => Err(Report::Trapped(trap)),
        EvalEnd::TurnsSpent => Err(Report::BudgetSpent(turns)),
        // No fault comes from `SureSource`, nor from a `MemSink` that is told no failing call: memory is wanting.
        EvalEnd::ReadFault | EvalEnd::WriteFault | EvalEnd::NoMemory => Err(Report::NoMemory),
    }
}

/// Puts the line of the run of an image on the output.
fn put_run<O: Sink>(alloc: Global, image: Vec<u8>, steps: u64, out: &mut O) -> Report
    ensures files { (counts : StoreCounts) → FilesCause result counts counts }
    ensures streams { (input : ℕ) → StreamsCause result input input (O.counts out.old) (O.counts out.new) }
    ensures telling { O.tells out.old → O.tells out.new }
    ensures put { RunPut steps image.items (output_of O.Sink out.old) (output_of O.Sink out.new) result }
{
    match line_of_run(alloc, image, steps) {
        Ok(line) => put_answer(line.as_slice(), out),
        Err(report) => report,
    }
}

/// Compiles a program that ends, writes NAME.map, and then NAME, and puts the line of the run of the bytes that it wrote
/// under NAME on the output.
fn test_image<F: FileStore, O: Sink>(
    alloc: Global,
    name: &str,
    program: &Program,
    steps: u64,
    files: &mut F,
    out: &mut O,
) -> Report
    requires typed { IsTyped (program_of program.now) }
    requires ends { HasEnd (program_of program.now) }
    ensures files_cause { FilesCause result (F.counts files.old) (F.counts files.new) }
    // It speaks of no input.
    ensures streams_cause { (input : ℕ) → StreamsCause result input input (O.counts out.old) (O.counts out.new) }
    ensures told { (texts : List (List ℕ)) → HaveTypedProgram texts (program_of program.now) →
        ImageTested steps name.now texts [] (store_of F.FileStore files.old) (store_of F.FileStore files.new)
        (output_of O.Sink out.old) (output_of O.Sink out.new) result }
{
    programs_are_ready();
    map_lists_locals();
    let products = match compile_program(alloc, program) {
        Ok(products) => products,
        Err(NoMemory) => return Report::NoMemory,
    };
    let Ok(map_name) = format!(in alloc; "{name}.map") else {
        return Report::NoMemory;
    };
    match write_products(map_name.as_str(), name, &products, files) {
        Report::Compiled => put_run(alloc, products.image, steps, out),
        refused => refused,
    }
}

/// Evaluates the generated program of the number for so many turns at most, and puts the line of that on the output;
/// then compiles it, writes NAME.map, and then NAME, runs the bytes that it wrote under NAME for so many steps at most,
/// and puts the line of that on the output. Nothing is written where an earlier step refuses.
pub fn selftest<F: FileStore, O: Sink>(
    alloc: Global,
    name: &str,
    number: u32,
    turns: u64,
    steps: u64,
    files: &mut F,
    out: &mut O,
) -> Report
    ensures files_cause { FilesCause result (F.counts files.old) (F.counts files.new) }
    // It speaks of no input.
    ensures streams_cause { (input : ℕ) → StreamsCause result input input (O.counts out.old) (O.counts out.new) }
    ensures told { SelftestTold turns steps name.now (generated number ∷ []) (store_of F.FileStore files.old)
        (store_of F.FileStore files.new) (output_of O.Sink out.old) (output_of O.Sink out.new) result }
{
    let program = match generated_program(alloc, number) {
        Ok(program) => program,
        Err(report) => return report,
    };
    let line = match line_of_evaluation(alloc, &program, turns) {
        Ok(line) => line,
        Err(report) => return report,
    };
    match put_answer(line.as_slice(), out) {
        Report::Answered => test_image(alloc, name, &program, steps, files, out),
        refused => refused,
    }
}
