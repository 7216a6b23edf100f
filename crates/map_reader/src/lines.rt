//! Lines, as far as words are one, by the first word.

ghost use Rattle.std.specs.Prelude.{◌≡◌, IfOk, option_map};
ghost use Rattle.map_text.specs.Reading.{
  array_in,
  block_in,
  board_in,
  function_in,
  line_by,
  line_in,
  object_in,
  point_in,
  variable_in,
};
ghost use Rattle.map_text.specs.Fields.{all_in, number_in, standing_in};
ghost use Rattle.map_text.specs.Words.{AfterLine, BeforeLine, SpilledLine};
ghost use Rattle.map_reader.specs.Views.{line_of, texts};

use crate::fields::{name, named, width};
use crate::line::Line;
use crate::lists::{numbers, pieces, standings};
use crate::numbers::{address, bytes, negative, number};
use crate::ops::op;
use crate::places::area;
use crate::words::next;
use map_file::{MapArray, MapObject, MapVar};
use pcc_base::NoMemory;
use std::alloc::Global;

// ---- what follows the first word

/// The line of a static object.
#[tactic(auto, unfolding(map_text::specs::Reading::object_in))]
fn object(words: &[&[u8]]) -> Option<Line>
    ensures { option_map line_of result ≡ object_in (texts words.now) }
{
    let (first, words) = next(words)?;
    let (second, words) = next(words)?;
    let (third, words) = next(words)?;
    let (fourth, words) = next(words)?;
    if next(words).is_some() {
        return None;
    }
    let at = number(first)?;
    let address = address(second)?;
    let count = number(third)?;
    let bytes = bytes(fourth)?;
    Some(Line::Object(
        at,
        MapObject {
            address,
            count,
            bytes,
        },
    ))
}

/// The line of a function.
#[tactic(auto, unfolding(map_text::specs::Reading::function_in))]
fn function(alloc: Global, words: &[&[u8]]) -> Result<Option<Line>, NoMemory>
    ensures { IfOk result (λ line. option_map line_of line ≡ function_in (texts words.now)) }
{
    let Some((first, words)) = next(words) else {
        return Ok(None);
    };
    let Some((second, words)) = next(words) else {
        return Ok(None);
    };
    let Some((third, words)) = next(words) else {
        return Ok(None);
    };
    let Some((fourth, words)) = next(words) else {
        return Ok(None);
    };
    if next(words).is_some() {
        return Ok(None);
    }
    let Some(at) = number(first) else {
        return Ok(None);
    };
    let Some(frame) = number(fourth) else {
        return Ok(None);
    };
    if third == b"frame".as_slice() {
        let name = name(alloc, second)?;
        Ok(Some(Line::Function(at, name, frame)))
    } else {
        Ok(None)
    }
}

/// The line of a frame array.
#[tactic(auto, unfolding(map_text::specs::Reading::array_in))]
fn array(words: &[&[u8]]) -> Option<Line>
    ensures { option_map line_of result ≡ array_in (texts words.now) }
{
    let (first, words) = next(words)?;
    let (second, words) = next(words)?;
    let (third, words) = next(words)?;
    let (fourth, words) = next(words)?;
    if next(words).is_some() {
        return None;
    }
    let at = number(first)?;
    let offset = negative(second)?;
    let count = number(third)?;
    let bytes = bytes(fourth)?;
    Some(Line::Array(
        at,
        MapArray {
            offset,
            count,
            bytes,
        },
    ))
}

/// The line of a variable.
#[tactic(auto, unfolding(map_text::specs::Reading::variable_in))]
fn variable(alloc: Global, words: &[&[u8]]) -> Result<Option<Line>, NoMemory>
    ensures { IfOk result (λ line. option_map line_of line ≡ variable_in (texts words.now)) }
{
    let Some((first, words)) = next(words) else {
        return Ok(None);
    };
    let Some((second, words)) = next(words) else {
        return Ok(None);
    };
    let Some((third, words)) = next(words) else {
        return Ok(None);
    };
    if next(words).is_some() {
        return Ok(None);
    }
    let Some(at) = number(first) else {
        return Ok(None);
    };
    let Some(width) = width(second) else {
        return Ok(None);
    };
    let Some(name) = named(alloc, third)? else {
        return Ok(None);
    };
    Ok(Some(Line::Variable(at, MapVar { width, name })))
}

/// The line of a block.
#[tactic(auto, unfolding(map_text::specs::Reading::block_in))]
fn block(words: &[&[u8]]) -> Option<Line>
    ensures { option_map line_of result ≡ block_in (texts words.now) }
{
    let (first, words) = next(words)?;
    if next(words).is_some() {
        return None;
    }
    let at = number(first)?;
    Some(Line::Block(at))
}

/// The line of a point.
#[tactic(auto, unfolding(map_text::specs::Reading::point_in))]
fn point(alloc: Global, words: &[&[u8]]) -> Result<Option<Line>, NoMemory>
    ensures { IfOk result (λ line. option_map line_of line ≡ point_in (texts words.now)) }
{
    let Some((first, words)) = next(words) else {
        return Ok(None);
    };
    let Some((second, words)) = next(words) else {
        return Ok(None);
    };
    let Some(at) = number(first) else {
        return Ok(None);
    };
    let Some(address) = address(second) else {
        return Ok(None);
    };
    let Some(op) = op(alloc, words)? else {
        return Ok(None);
    };
    Ok(Some(Line::Point(at, address, op)))
}

/// The line of a board.
#[tactic(auto, unfolding(map_text::specs::Reading::board_in))]
fn board(alloc: Global, words: &[&[u8]]) -> Result<Option<Line>, NoMemory>
    ensures { IfOk result (λ line. option_map line_of line ≡ board_in (texts words.now)) }
{
    let Some((first, words)) = next(words) else {
        return Ok(None);
    };
    let Some((second, words)) = next(words) else {
        return Ok(None);
    };
    let Some((third, words)) = next(words) else {
        return Ok(None);
    };
    let Some((fourth, words)) = next(words) else {
        return Ok(None);
    };
    let Some((word, words)) = next(words) else {
        return Ok(None);
    };
    let Some(eax) = area(first) else {
        return Ok(None);
    };
    let Some(ebx) = area(second) else {
        return Ok(None);
    };
    let Some(ecx) = area(third) else {
        return Ok(None);
    };
    let Some(edx) = area(fourth) else {
        return Ok(None);
    };
    let Some(pieces) = pieces(alloc, words)? else {
        return Ok(None);
    };
    if word == b"pieces".as_slice() {
        Ok(Some(Line::Board([eax, ebx, ecx, edx], pieces)))
    } else {
        Ok(None)
    }
}

/// The line of where variables stand before a point.
fn before(alloc: Global, words: &[&[u8]]) -> Result<Option<Line>, NoMemory>
    ensures { IfOk result (λ line.
        option_map line_of line ≡ option_map BeforeLine (all_in standing_in (texts words.now))) }
{
    match standings(alloc, words)? {
        Some(entries) => Ok(Some(Line::Before(entries))),
        None => Ok(None),
    }
}

/// The line of where variables stand after a point.
fn after(alloc: Global, words: &[&[u8]]) -> Result<Option<Line>, NoMemory>
    ensures { IfOk result (λ line.
        option_map line_of line ≡ option_map AfterLine (all_in standing_in (texts words.now))) }
{
    match standings(alloc, words)? {
        Some(entries) => Ok(Some(Line::After(entries))),
        None => Ok(None),
    }
}

/// The line of the variables that are spilled at a point.
fn spilled(alloc: Global, words: &[&[u8]]) -> Result<Option<Line>, NoMemory>
    ensures { IfOk result (λ line.
        option_map line_of line ≡ option_map SpilledLine (all_in number_in (texts words.now))) }
{
    match numbers(alloc, words)? {
        Some(variables) => Ok(Some(Line::Spilled(variables))),
        None => Ok(None),
    }
}

// ---- lines

/// A line, by its first word.
#[tactic(auto, unfolding(map_text::specs::Reading::line_by))]
fn by(alloc: Global, word: &[u8], words: &[&[u8]]) -> Result<Option<Line>, NoMemory>
    ensures { IfOk result (λ line. option_map line_of line ≡ line_by word.now (texts words.now)) }
{
    if word == b"point".as_slice() {
        return point(alloc, words);
    }
    if word == b"board".as_slice() {
        return board(alloc, words);
    }
    if word == b"before".as_slice() {
        return before(alloc, words);
    }
    if word == b"after".as_slice() {
        return after(alloc, words);
    }
    if word == b"spilled".as_slice() {
        return spilled(alloc, words);
    }
    if word == b"block".as_slice() {
        return Ok(block(words));
    }
    if word == b"var".as_slice() {
        return variable(alloc, words);
    }
    if word == b"array".as_slice() {
        return Ok(array(words));
    }
    if word == b"function".as_slice() {
        return function(alloc, words);
    }
    if word == b"object".as_slice() {
        return Ok(object(words));
    }
    if word == b"pcc".as_slice() {
        return Ok(Some(Line::Title));
    }
    if word == b"end".as_slice() {
        return Ok(Some(Line::End));
    }
    Ok(None)
}

/// The line that words are, if they are one. Some words are read too that no map has, as a number with a zero in front.
/// The only refusal is want of memory.
#[tactic(auto, unfolding(map_text::specs::Reading::line_in))]
pub(crate) fn read_line(alloc: Global, words: &[&[u8]]) -> Result<Option<Line>, NoMemory>
    ensures { IfOk result (λ line. option_map line_of line ≡ line_in (texts words.now)) }
{
    match next(words) {
        Some((word, words)) => by(alloc, word, words),
        None => Ok(None),
    }
}
