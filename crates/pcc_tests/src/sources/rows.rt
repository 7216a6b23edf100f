//! The files of a row, and what `check` answers of them.

ghost use Rattle.std.specs.Prelude.{◌≡◌};

use c_check::check;
use c_lex::{advance, lex};
use c_parse::parse;
use c_syntax::RawUnit;
use c_tree::Program;
use pcc_base::{Refusal, Span};
use std::alloc::{AllocError, Global};

/// The most tokens of all files.
const MOST: usize = 65536;

/// The first place of a file.
fn first_place(file: u32) -> Span
    ensures { (result.line ≡ 1) × (result.col ≡ 1) }
{
    Span {
        file,
        line: 1,
        col: 1,
    }
}

/// The files of a row, and where its `@` stands.
#[derive(Drop)]
pub struct Row {
    pub files: Vec<Vec<u8>>,
    pub at: Span,
}

/// Reads the program of a row: a `$` stands between two files.
pub fn read(alloc: Global, text: &str) -> Result<Row, AllocError> {
    let mut files = Vec::new(alloc);
    let mut file = Vec::new(alloc);
    let mut here = first_place(0);
    let mut at = here;
    for byte in text.as_bytes() {
        match *byte {
            b'@' => at = here,
            b'$' => {
                files.push(std::mem::replace(&mut file, Vec::new(alloc)))?;
                here = first_place(here.file.saturating_add(1));
            }
            other => {
                file.push(other)?;
                here.col = here.col.saturating_add(1);
            }
        }
    }
    files.push(file)?;
    Ok(Row { files, at })
}

/// The raw tree of a text, and where it ends.
pub fn parsed(alloc: Global, file: u32, text: &[u8]) -> Result<(RawUnit, Span), Refusal> {
    if text.len() > 1_000_000 {
        return Err(Refusal::NoMemory);
    }
    let tokens = lex(alloc, file, text, MOST)?;
    let end = advance(first_place(file), text);
    Ok((parse(alloc, &tokens, end)?, end))
}

/// The typed program of the files.
pub fn typed(alloc: Global, files: &[Vec<u8>]) -> Result<Program, Refusal> {
    let mut units = Vec::new(alloc);
    let mut last = first_place(0);
    let mut file = 0u32;
    for text in files {
        let (unit, end) = parsed(alloc, file, text.as_slice())?;
        if units.push(unit).is_err() {
            return Err(Refusal::NoMemory);
        }
        last = end;
        file = file.saturating_add(1);
    }
    check(alloc, units.as_slice(), last)
}

/// Why the files are refused, if they are.
pub fn answer(alloc: Global, files: &[Vec<u8>]) -> Option<Refusal> {
    typed(alloc, files).err()
}
