//! The text of a map read from the front, line by line.

ghost use Rattle.std.specs.Prelude.{◌≡◌, IfOk, OnOk, option_map};
ghost use Rattle.map_text.specs.Reading as reading;
ghost use Rattle.map_file.specs.Views.{map_of};
ghost use Rattle.map_reader.specs.Steps.{IsStep};

use crate::line::Line;
use crate::lines::read_line;
use crate::tree::add_line;
use crate::words::{cut_at, words_of};
use map_file::MapFile;
use pcc_base::NoMemory;
use std::alloc::Global;

/// What a line of a text is.
enum Step {
    /// No line of a map.
    Nothing,
    /// The last line of a map.
    Ended,
    /// Another line, which the map has now.
    Going,
}

/// Reads a line, and puts it behind those that the map was made of.
fn read_next<'a>(
    alloc: Global,
    map: &mut MapFile,
    words: &mut Vec<&'a [u8]>,
    line: &'a [u8],
) -> Result<Step, NoMemory>
    ensures { IfOk result (λ step.
        IsStep step (map_of map.old) (reading.line_in (reading.words_of line.now)) (map_of map.new)) }
{
    words_of(words, line)?;
    match read_line(alloc, words.as_slice())? {
        None => Ok(Step::Nothing),
        Some(Line::End) => Ok(Step::Ended),
        Some(line) => {
            add_line(alloc, map, line)?;
            Ok(Step::Going)
        }
    }
}

/// The map with whose text a text begins, if it begins with one. Some texts are read too that are of no map, so who
/// asks for a map judges its rules, prints it, and compares. The only refusal is want of memory.
#[tactic(auto, using(crate::proofs::Fronts::line_gone, crate::proofs::Fronts::no_line, crate::proofs::Fronts::last_line, crate::proofs::Fronts::none_ended))]
pub(crate) fn read_front(alloc: Global, text: &[u8]) -> Result<Option<MapFile>, NoMemory>
    ensures { IfOk result (λ map. option_map map_of map ≡ option_map (λ read. read.0) (reading.map_in text.now)) }
{
    let mut map = MapFile {
        objects: Vec::new(alloc),
        functions: Vec::new(alloc),
    };
    let mut words = Vec::new(alloc);
    let mut rest = text;
    'lines: while let Some((line, others)) = cut_at(rest, b'\n') {
        match read_next(alloc, &mut map, &mut words, line)? {
            Step::Nothing => return Ok(None),
            Step::Ended => return Ok(Some(map)),
            Step::Going => rest = others,
        }
    }
    match read_next(alloc, &mut map, &mut words, rest)? {
        Step::Ended => Ok(Some(map)),
        Step::Nothing | Step::Going => Ok(None),
    }
}
