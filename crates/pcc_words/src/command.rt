//! A command as the words have it.

/// What the words of the command line ask for.
#[derive(Drop)]
pub enum Command<'a> {
    /// `compile -o NAME SRC..`: compile the sources, and write NAME.map and NAME.
    Compile {
        name: &'a str,
        sources: Vec<&'a str>,
    },
    /// `run [--steps N] IMAGE`: run the image in the machine, for N steps at most.
    Run {
        steps: u64,
        image: &'a str,
    },
    /// `eval [--turns N] SRC..`: evaluate the sources, for N turns at most.
    Eval {
        turns: u64,
        sources: Vec<&'a str>,
    },
    /// `solve FILE`: solve the board of the file.
    Solve {
        file: &'a str,
    },
    /// `gen N`: put the generated program of the number on the output.
    Gen {
        number: u32,
    },
    /// `selftest -o NAME N`: evaluate and compile the generated program of the number, and run its image, NAME.
    Selftest {
        name: &'a str,
        number: u32,
    },
    /// `least FILE`: remove the fewest pieces of the board of the file.
    Least {
        file: &'a str,
    },
    /// `board SRC..`: compile the sources, and put their map on the output.
    Board {
        sources: Vec<&'a str>,
    },
    /// There are so many sources, more than are read.
    ManyFiles(usize),
    /// No command; the text says what is wrong with the words, or has the help that they ask for.
    Usage(String),
}
