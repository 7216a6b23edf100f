//! Words of areas and pieces, as far as a text has any.

ghost use Rattle.std.specs.Prelude.{◌≡◌, IfOk};
ghost use Rattle.puzzle_solver.specs.Reading.{area_of, column_of, kind_of_letter, shape_of, width_of_digit, word_at};
ghost use Rattle.puzzle_solver.specs.Reading.{words_read};

use pcc_base::{NoMemory, Width};
use puzzle_board::{Area, Column, Kind};
use std::alloc::Global;

/// The column of a letter.
fn column_of(letter: u8) -> Option<Column>
    ensures { result ≡ column_of letter }
{
    match letter {
        b'b' => Some(Column::Both),
        b'u' => Some(Column::Upper),
        b'l' => Some(Column::Lower),
        b'n' => Some(Column::Neither),
        _ => None,
    }
}

/// The area of two letters.
fn area_of(low: u8, high: u8) -> Option<Area>
    ensures { result ≡ area_of low high }
{
    match (column_of(low), column_of(high)) {
        (Some(low), Some(high)) => Some(Area { low, high }),
        (Some(_), None) | (None, _) => None,
    }
}

/// The kind of a letter.
fn kind_of(letter: u8) -> Option<Kind>
    ensures { result ≡ kind_of_letter letter }
{
    match letter {
        b'X' => Some(Kind::X),
        b'Y' => Some(Kind::Y),
        b'Z' => Some(Kind::Z),
        _ => None,
    }
}

/// The width of a digit.
fn width_of(digit: u8) -> Option<Width>
    ensures { result ≡ width_of_digit digit }
{
    match digit {
        b'1' => Some(Width::One),
        b'2' => Some(Width::Two),
        _ => None,
    }
}

/// The kind and the width of a letter and a digit.
fn shape_of(letter: u8, digit: u8) -> Option<(Kind, Width)>
    ensures { result ≡ shape_of letter digit }
{
    match (kind_of(letter), width_of(digit)) {
        (Some(kind), Some(width)) => Some((kind, width)),
        (Some(_), None) | (None, _) => None,
    }
}

/// The area whose word begins the text, behind a space.
fn area_at(text: &[u8]) -> Option<Area>
    ensures { result ≡ word_at area_of text.now }
{
    if text.len() < 3 || text[0] != b' ' {
        return None;
    }
    area_of(text[1], text[2])
}

/// The kind and the width whose word begins the text, behind a space.
fn shape_at(text: &[u8]) -> Option<(Kind, Width)>
    ensures { result ≡ word_at shape_of text.now }
{
    if text.len() < 3 || text[0] != b' ' {
        return None;
    }
    shape_of(text[1], text[2])
}

/// The areas whose words begin the text, and what is behind them.
pub(crate) fn areas_in<'a>(alloc: Global, text: &'a [u8]) -> Result<(Vec<Area>, &'a [u8]), NoMemory>
    ensures { IfOk result (λ r. (r.0.items ≡ (words_read area_of text.now).0)
        × (r.1.now ≡ (words_read area_of text.now).1)) }
{
    let mut areas = Vec::new(alloc);
    let mut rest = text;
    'words: while let Some(area) = area_at(rest) {
        areas.push(area)?;
        rest = &rest[3..];
    }
    Ok((areas, rest))
}

/// The kinds and widths whose words begin the text, and what is behind them.
pub(crate) fn shapes_in<'a>(
    alloc: Global,
    text: &'a [u8],
) -> Result<(Vec<(Kind, Width)>, &'a [u8]), NoMemory>
    ensures { IfOk result (λ r. (r.0.items ≡ (words_read shape_of text.now).0)
        × (r.1.now ≡ (words_read shape_of text.now).1)) }
{
    let mut shapes = Vec::new(alloc);
    let mut rest = text;
    'words: while let Some(shape) = shape_at(rest) {
        shapes.push(shape)?;
        rest = &rest[3..];
    }
    Ok((shapes, rest))
}
