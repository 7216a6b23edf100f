ghost use Rattle.std.specs.Prelude.{◌≡◌};
ghost use Rattle.pcc_driver.specs.Reports.{is_silent, is_usage, status_of};

use pcc_base::{Fault, Stop, Trap};

/// A file that a command names.
#[derive(Clone, Copy)]
pub enum Named {
    /// The source at this position that `compile` or `eval` reads.
    Source(u32),
    /// The map that `compile` writes.
    Map,
    /// The image that `compile` writes or `run` reads.
    Image,
    /// The board that `solve` or `least` reads.
    Board,
}

/// How a command went. Each report has a status and a line for standard error.
#[derive(Drop)]
pub enum Report {
    /// Both files are written.
    Compiled,
    /// The program ended with this exit status.
    Exited(u8),
    /// A source is faulty.
    SourceFault(Fault),
    /// The words mean no command.
    Usage,
    /// The file that is read has too many bytes.
    TooLong(Named),
    /// The sources have so many tokens, more than are read.
    TooManyTokens(u64),
    /// The static objects of the program have so many bytes, more than they may have.
    LargeArrays(u64),
    /// The frame of the function of this name has so many bytes, more than it may have.
    LargeFrame { name: Vec<u8>, bytes: u64 },
    /// There are so many sources, more than are read.
    TooManyFiles(u64),
    /// The board has so many areas and pieces, more than `least` is asked of.
    LargeBoard { areas: u32, pieces: u32 },
    /// Reading the file failed.
    ReadFault(Named),
    /// Reading the input failed.
    InputFault,
    /// Writing the file failed.
    WriteFault(Named),
    /// Writing to standard output failed.
    OutputFault,
    /// The file isn't there.
    NoFile(Named),
    /// The file is no image.
    NotImage,
    /// The program trapped.
    Trapped(Trap),
    /// The machine stopped for this cause, at the instruction at this address.
    Stopped(Stop, u32),
    /// The program still runs after so many steps, or turns.
    BudgetSpent(u64),
    /// The answer of the command is put on the output.
    Answered,
    /// The file is the text of no board.
    BadBoard,
    /// There was no memory.
    NoMemory,
}

impl Report {
    /// The exit status.
    pub fn status(&self) -> u8
        ensures { result ≡ status_of self.now }
    {
        match self {
            Report::Compiled | Report::Exited(_) | Report::Answered => 0,
            Report::SourceFault(_) | Report::BadBoard => 1,
            Report::Usage => 2,
            Report::TooLong(_)
            | Report::TooManyTokens(_)
            | Report::LargeArrays(_)
            | Report::LargeFrame { .. }
            | Report::TooManyFiles(_)
            | Report::LargeBoard { .. } => 3,
            Report::ReadFault(_) | Report::InputFault => 4,
            Report::WriteFault(_) | Report::OutputFault => 5,
            Report::NoFile(_) => 6,
            Report::NotImage => 7,
            Report::Trapped(_) => 8,
            Report::Stopped(_, _) => 9,
            Report::BudgetSpent(_) => 10,
            Report::NoMemory => 11,
        }
    }

    /// Whether no line is put for the report.
    pub(crate) fn is_silent(&self) -> bool
        ensures { result ≡ is_silent self.now }
    {
        matches!(self, Report::Compiled | Report::Answered)
    }

    /// Whether the words mean no command.
    pub(crate) fn is_usage(&self) -> bool
        ensures { result ≡ is_usage self.now }
    {
        matches!(self, Report::Usage)
    }
}
