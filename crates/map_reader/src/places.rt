//! Areas, pieces, and places of variables, as far as a word is one.

ghost use Rattle.std.specs.Prelude.{◌≡◌, option_map};
ghost use Rattle.map_text.specs.Entries.{cells_place, place_of, standing_of};
ghost use Rattle.map_text.specs.Fields.{
  area_in,
  column_in,
  kind_in,
  piece_by,
  piece_in,
  place_in,
  register_in,
  standing_in,
  width_of_digit,
};

use crate::numbers::{negative, number};
use crate::words::{cut_at, next_byte};
use pcc_base::Width;
use puzzle_board::{Area, Column, Columns, Kind, Piece, Place, Spot};

// ---- places

/// Columns of an area.
fn cells(area: u32, columns: Columns) -> Place
    ensures { place_of result ≡ cells_place area columns }
{
    Place::Cells(Spot { area, columns })
}

/// A register that variables stand in, or a byte of one.
#[tactic(auto, unfolding(map_text::specs::Fields::register_in))]
fn register(word: &[u8]) -> Option<Place>
    ensures { option_map place_of result ≡ register_in word.now }
{
    if word == b"eax".as_slice() {
        return Some(cells(0, Columns::All));
    }
    if word == b"ebx".as_slice() {
        return Some(cells(1, Columns::All));
    }
    if word == b"ecx".as_slice() {
        return Some(cells(2, Columns::All));
    }
    if word == b"edx".as_slice() {
        return Some(cells(3, Columns::All));
    }
    if word == b"al".as_slice() {
        return Some(cells(0, Columns::Low));
    }
    if word == b"bl".as_slice() {
        return Some(cells(1, Columns::Low));
    }
    if word == b"cl".as_slice() {
        return Some(cells(2, Columns::Low));
    }
    if word == b"dl".as_slice() {
        return Some(cells(3, Columns::Low));
    }
    if word == b"ah".as_slice() {
        return Some(cells(0, Columns::High));
    }
    if word == b"bh".as_slice() {
        return Some(cells(1, Columns::High));
    }
    if word == b"ch".as_slice() {
        return Some(cells(2, Columns::High));
    }
    if word == b"dh".as_slice() {
        return Some(cells(3, Columns::High));
    }
    None
}

/// A register, or a slot: an offset from EBP.
#[tactic(auto, unfolding(map_text::specs::Fields::place_in))]
fn place(word: &[u8]) -> Option<Place>
    ensures { option_map place_of result ≡ place_in word.now }
{
    let Some(rest) = word.strip_prefix(b"[ebp".as_slice()) else {
        return register(word);
    };
    let offset = rest.strip_suffix(b"]".as_slice())?;
    let offset = negative(offset)?;
    Some(Place::Slot(offset))
}

/// A variable and its place.
#[tactic(auto, unfolding(map_text::specs::Fields::standing_in))]
pub(crate) fn standing(word: &[u8]) -> Option<(u32, Place)>
    ensures { option_map standing_of result ≡ standing_in word.now }
{
    let (variable, rest) = cut_at(word, b'=')?;
    let variable = number(variable)?;
    let place = place(rest)?;
    Some((variable, place))
}

// ---- boards

/// The column of a letter.
#[tactic(auto, unfolding(map_text::specs::Fields::column_in))]
fn column(letter: u8) -> Option<Column>
    ensures { result ≡ column_in letter }
{
    match letter {
        b'b' => Some(Column::Both),
        b'u' => Some(Column::Upper),
        b'l' => Some(Column::Lower),
        b'n' => Some(Column::Neither),
        _ => None,
    }
}

/// An area, its low column first.
#[tactic(auto, unfolding(map_text::specs::Fields::area_in))]
pub(crate) fn area(word: &[u8]) -> Option<Area>
    ensures { result ≡ area_in word.now }
{
    let (low, rest) = next_byte(word)?;
    let (high, rest) = next_byte(rest)?;
    if next_byte(rest).is_some() {
        return None;
    }
    let low = column(low)?;
    let high = column(high)?;
    Some(Area { low, high })
}

/// The kind of a letter.
#[tactic(auto, unfolding(map_text::specs::Fields::kind_in))]
fn kind(letter: u8) -> Option<Kind>
    ensures { result ≡ kind_in letter }
{
    match letter {
        b'X' => Some(Kind::X),
        b'Y' => Some(Kind::Y),
        b'Z' => Some(Kind::Z),
        _ => None,
    }
}

/// The width of a digit.
#[tactic(auto, unfolding(map_text::specs::Fields::width_of_digit))]
fn width_of(digit: u8) -> Option<Width>
    ensures { result ≡ width_of_digit digit }
{
    match digit {
        b'1' => Some(Width::One),
        b'2' => Some(Width::Two),
        _ => None,
    }
}

/// A piece of these parts.
fn piece_of(letter: u8, digit: u8, sign: u8, variable: &[u8]) -> Option<Piece>
    ensures { result ≡ piece_by letter digit sign variable.now }
{
    let kind = kind(letter)?;
    let width = width_of(digit)?;
    let var = number(variable)?;
    if sign == b':' {
        Some(Piece { kind, width, var })
    } else {
        None
    }
}

/// A piece: its kind, its width and its variable.
#[tactic(auto, unfolding(map_text::specs::Fields::piece_in))]
pub(crate) fn piece(word: &[u8]) -> Option<Piece>
    ensures { result ≡ piece_in word.now }
{
    let (letter, rest) = next_byte(word)?;
    let (digit, rest) = next_byte(rest)?;
    let (sign, variable) = next_byte(rest)?;
    piece_of(letter, digit, sign, variable)
}
