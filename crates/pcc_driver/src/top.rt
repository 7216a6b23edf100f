ghost use Rattle.std.specs.Prelude.{◌≡◌, ◌≤◌, ◌⊎◌, ℕ, List, map, string_bytes};
ghost use Rattle.pcc_driver.specs.Ends.{Ends};
ghost use Rattle.pcc_driver.specs.Causes.{HasCause};
ghost use Rattle.pcc_driver.specs.Answers.{CommandTold};
ghost use Rattle.pcc_words.specs.Asked.{command_of, Compile, HasFewSources};
ghost use Rattle.pcc_driver.specs.Headline.{IsCompiled};
ghost use Rattle.pcc_driver.specs.Outside.{work_of, outside_of};
ghost use Rattle.pcc_driver.specs.Promises.{IsQuiet, TellsEnough, HasStatus, HasCauses, NoticesFaults};
ghost use Rattle.pcc_words.specs.Words.{meaning};
ghost use Rattle.pcc_driver.specs.declared.report.Report.{Report};

use crate::board::board;
use crate::compile::compile;
use crate::evaluated::eval;
use crate::finished::{finish, finish_wanting};
use crate::generate::generate;
use crate::least::least;
use crate::report::Report;
use crate::run::run;
use crate::selftest::{STEP_LIMIT, TURN_LIMIT, selftest};
use crate::solve::solve;
use pcc_base::NoMemory;
use pcc_outside::{FileStore, Sink, Source};
use pcc_words::{Command, command_of};
use std::alloc::Global;

/// Does what the command asks for, and says how it went.
fn carry_out<F: FileStore, I: Source, O: Sink>(
    alloc: Global,
    command: &Command<'_>,
    files: &mut F,
    input: &mut I,
    out: &mut O,
) -> Report
    requires few { HasFewSources (meaning command.now) }
    ensures cause { HasCause result
        (work_of F.FileStore I.Source O.Sink files.old input.old out.old)
        (work_of F.FileStore I.Source O.Sink files.new input.new out.new) }
    ensures told { CommandTold (meaning command.now)
        (work_of F.FileStore I.Source O.Sink files.old input.old out.old)
        (work_of F.FileStore I.Source O.Sink files.new input.new out.new)
        result }
{
    match command {
        Command::Compile { name, sources } => compile(alloc, name, sources.as_slice(), files),
        Command::Run { steps, image } => run(alloc, *steps, image, files, input, out),
        Command::Solve { file } => solve(alloc, file, files, out),
        Command::Eval { turns, sources } => {
            eval(alloc, *turns, sources.as_slice(), files, input, out)
        }
        Command::Gen { number } => generate(alloc, *number, out),
        Command::Selftest { name, number } => {
            selftest(alloc, name, *number, TURN_LIMIT, STEP_LIMIT, files, out)
        }
        Command::Least { file } => least(alloc, file, files, out),
        Command::Board { sources } => board(alloc, sources.as_slice(), files, out),
        Command::ManyFiles(count) => Report::TooManyFiles(*count as u64),
        Command::Usage(_) => Report::Usage,
    }
}

/// Does what the words of the command line ask for, over the files, the input, the output and standard
/// error that are lent, and answers the exit status.
///
/// | status | only where |
/// |---|---|
/// | 0 | the command did its work |
/// | 1 | the sources or the generated program aren't accepted, or the file is no board |
/// | 2 | the words mean no command |
/// | 3 | a file has too many bytes, there are too many sources, or they or the board are above another limit |
/// | 4 | reading a file or the input failed |
/// | 5 | writing a file, the output or standard error failed |
/// | 6 | a file isn't there |
/// | 7 | the file is no image |
/// | 8 | the program trapped |
/// | 9 | the machine stopped |
/// | 10 | the program still runs after the steps or turns that the words or `selftest` have |
/// | 11 | there was no memory |
pub fn pcc<F: FileStore, I: Source, O: Sink, E: Sink>(
    alloc: Global,
    words: &Vec<String>,
    files: &mut F,
    input: &mut I,
    out: &mut O,
    err: &mut E,
) -> u8
    // No other status is answered.
    ensures statuses { result ≤ 11 }

    // A compiled image does exactly what its sources do.
    ensures headline { (name : List ℕ) (sources : List (List ℕ)) →
        command_of (map string_bytes words.now.items) ≡ Compile name sources →
        F.tells files.old → result ≡ 0 →
        IsCompiled (F.content files.old) (F.content files.new) name sources }

    // The status is the one that the words, the files and the input have, and for `selftest` the written image, where
    // these tell, unless memory was wanting or a fault came.
    ensures exact { let old = outside_of F.FileStore I.Source O.Sink E.Sink files.old input.old out.old err.old in
        let new = outside_of F.FileStore I.Source O.Sink E.Sink files.new input.new out.new err.new in
        let command = command_of (map string_bytes words.now.items) in
        TellsEnough command old.work → IsQuiet old new → (result ≡ 11) ⊎ HasStatus command old.work new.work result }

    // Which count rose where the outside is the cause, and that there are too many sources, or that these are above a
    // limit, else.
    ensures causes { let old = outside_of F.FileStore I.Source O.Sink E.Sink files.old input.old out.old err.old in
        let new = outside_of F.FileStore I.Source O.Sink E.Sink files.new input.new out.new err.new in
        HasCauses (command_of (map string_bytes words.now.items)) old new result }

    // A fault that came is told.
    ensures noticed { let old = outside_of F.FileStore I.Source O.Sink E.Sink files.old input.old out.old err.old in
        let new = outside_of F.FileStore I.Source O.Sink E.Sink files.new input.new out.new err.new in
        NoticesFaults old new result }

    // The report of the command: which count rose, what the files and streams hold then, and the line
    // and the status that it ends in.
    ensures answered { let old = outside_of F.FileStore I.Source O.Sink E.Sink files.old input.old out.old err.old in
        let new = outside_of F.FileStore I.Source O.Sink E.Sink files.new input.new out.new err.new in
        let command = command_of (map string_bytes words.now.items) in
        (report : Report) × HasCause report old.work new.work × CommandTold command old.work new.work report
        × Ends command report old.err new.err result }
{
    match command_of(alloc, words.as_slice()) {
        Ok(command) => {
            let report = carry_out(alloc, &command, files, input, out);
            finish(alloc, &command, &report, err)
        }
        Err(NoMemory) => finish_wanting(err),
    }
}
