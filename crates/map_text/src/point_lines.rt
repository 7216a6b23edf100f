//! The lines of blocks and points: a point's op, its board, where variables stand before it and after it, and those
//! that are spilled there.

ghost use Rattle.std.specs.Prelude.{◌≡◌, ◌∷◌, [], ◌++◌, ℕ, ℤ, List, OnOk, codes, decimal, flat_map};
ghost use Rattle.map_text.specs.Entries.{below, cells_place, place_of, standing_of, standings_of};
ghost use Rattle.puzzle_board.specs.declared.piece.Columns.TheVariants.{All, High, Low};
ghost use Rattle.map_text.specs.Words.{
  AfterLine,
  BeforeLine,
  BlockLine,
  BoardLine,
  PointLine,
  SpilledLine,
  area_word,
  column_letter,
  kind_letter,
  line_text,
  piece_word,
  place_text,
  standing_word,
  width_digit,
};

use crate::digits::push_number;
use crate::head_lines::push_next_address;
use crate::op_words::{push_next, push_numbers, push_op};
use flow_graph::Op;
use pcc_base::{NoMemory, Width};
use puzzle_board::{Area, Column, Columns, Kind, Piece, Place, Spot};

// ---- boards

/// The letter of which rows of a column are free.
fn letter(column: Column) -> u8
    ensures { result ≡ column_letter column }
{
    match column {
        Column::Both => b'b',
        Column::Upper => b'u',
        Column::Lower => b'l',
        Column::Neither => b'n',
    }
}

/// The letter of a kind of pieces.
fn kind(kind: Kind) -> u8
    ensures { result ≡ kind_letter kind }
{
    match kind {
        Kind::X => b'X',
        Kind::Y => b'Y',
        Kind::Z => b'Z',
    }
}

/// The digit of a width.
fn digit(width: Width) -> u8
    ensures { result ≡ width_digit width }
{
    match width {
        Width::One => b'1',
        Width::Two => b'2',
    }
}

/// Puts an area at the end, behind a space.
fn push_area(out: &mut Vec<u8>, area: Area) -> Result<(), NoMemory>
    ensures { OnOk result (out.new.items ≡ out.old.items ++ codes " " ++ area_word area) }
{
    out.extend_from_slice(b" ")?;
    out.push(letter(area.low))?;
    out.push(letter(area.high))?;
    Ok(())
}

/// Puts areas at the end, a space before each.
fn push_areas(out: &mut Vec<u8>, areas: &[Area]) -> Result<(), NoMemory>
    ensures { OnOk result (out.new.items ≡ out.old.items ++ flat_map (λ a. codes " " ++ area_word a) areas.now) }
{
    for area in areas {
        push_area(out, *area)?;
    }
    Ok(())
}

/// Puts a piece at the end, behind a space: its kind, its width and its variable.
#[tactic(auto, using(crate::proofs::PrintedLines::piece_pushed))]
fn push_piece(out: &mut Vec<u8>, piece: Piece) -> Result<(), NoMemory>
    ensures { OnOk result (out.new.items ≡ out.old.items ++ codes " " ++ piece_word piece) }
{
    out.extend_from_slice(b" ")?;
    out.push(kind(piece.kind))?;
    out.push(digit(piece.width))?;
    out.push(b':')?;
    push_number(out, u64::from(piece.var))?;
    Ok(())
}

/// Puts pieces at the end, a space before each.
fn push_pieces(out: &mut Vec<u8>, pieces: &[Piece]) -> Result<(), NoMemory>
    ensures { OnOk result (out.new.items ≡ out.old.items ++ flat_map (λ p. codes " " ++ piece_word p) pieces.now) }
{
    for piece in pieces {
        push_piece(out, *piece)?;
    }
    Ok(())
}

/// Puts the line of a board at the end: its areas, the low column of each first, and its pieces. The only refusal is
/// want of memory.
#[tactic(auto, using(crate::proofs::PrintedLines::board_pushed))]
pub fn push_board(out: &mut Vec<u8>, areas: &[Area], pieces: &[Piece]) -> Result<(), NoMemory>
    ensures { OnOk result (out.new.items ≡ out.old.items ++ line_text (BoardLine areas.now pieces.now)) }
{
    out.extend_from_slice(b"board")?;
    push_areas(out, areas)?;
    out.extend_from_slice(b" pieces")?;
    push_pieces(out, pieces)?;
    out.extend_from_slice(b"\n")?;
    Ok(())
}

// ---- places

/// How far below 0 an offset is; 0 where it isn't.
fn below(offset: i32) -> u32
    ensures { result ≡ below offset }
{
    if offset < 0 { offset.unsigned_abs() } else { 0 }
}

/// The register of an area. An area that there isn't has one in which no variable stands.
fn word(area: u32) -> &'static [u8]
    ensures { result.now ≡ place_text (cells_place area All) }
{
    match area {
        0 => b"eax",
        1 => b"ebx",
        2 => b"ecx",
        3 => b"edx",
        _ => b"esp",
    }
}

/// The low byte of an area's register.
fn low_byte(area: u32) -> &'static [u8]
    ensures { result.now ≡ place_text (cells_place area Low) }
{
    match area {
        0 => b"al",
        1 => b"bl",
        2 => b"cl",
        3 => b"dl",
        _ => b"esp",
    }
}

/// The second byte of an area's register.
fn high_byte(area: u32) -> &'static [u8]
    ensures { result.now ≡ place_text (cells_place area High) }
{
    match area {
        0 => b"ah",
        1 => b"bh",
        2 => b"ch",
        3 => b"dh",
        _ => b"esp",
    }
}

/// The register that columns of an area are, or the byte of it.
fn cells(spot: Spot) -> &'static [u8]
    ensures { result.now ≡ place_text (cells_place spot.area spot.columns) }
{
    match spot.columns {
        Columns::All => word(spot.area),
        Columns::Low => low_byte(spot.area),
        Columns::High => high_byte(spot.area),
    }
}

/// Puts a place at the end.
fn push_place(out: &mut Vec<u8>, place: Place) -> Result<(), NoMemory>
    ensures { OnOk result (out.new.items ≡ out.old.items ++ place_text (place_of place)) }
{
    match place {
        Place::Cells(spot) => out.extend_from_slice(cells(spot))?,
        Place::Slot(offset) => {
            out.extend_from_slice(b"[ebp-")?;
            push_number(out, u64::from(below(offset)))?;
            out.extend_from_slice(b"]")?;
        }
    }
    Ok(())
}

/// Puts a variable and its place at the end, behind a space.
#[tactic(auto, using(crate::proofs::PrintedLines::standing_pushed))]
pub(crate) fn push_standing(out: &mut Vec<u8>, variable: u32, place: Place) -> Result<(), NoMemory>
    ensures { OnOk result (
        out.new.items ≡ out.old.items ++ codes " " ++ standing_word (standing_of (variable, place))) }
{
    out.extend_from_slice(b" ")?;
    push_number(out, u64::from(variable))?;
    out.extend_from_slice(b"=")?;
    push_place(out, place)?;
    Ok(())
}

/// Puts variables and their places at the end, a space before each.
fn push_standings(out: &mut Vec<u8>, entries: &[(u32, Place)]) -> Result<(), NoMemory>
    ensures { OnOk result (
        out.new.items ≡ out.old.items ++ flat_map (λ s. codes " " ++ standing_word s) (standings_of entries.now)) }
{
    for entry in entries {
        push_standing(out, entry.0, entry.1)?;
    }
    Ok(())
}

/// Puts the line of where variables stand before a point at the end. The only refusal is want of memory.
#[tactic(auto, using(crate::proofs::PrintedLines::before_pushed))]
pub fn push_before(out: &mut Vec<u8>, entries: &[(u32, Place)]) -> Result<(), NoMemory>
    ensures { OnOk result (out.new.items ≡ out.old.items ++ line_text (BeforeLine (standings_of entries.now))) }
{
    out.extend_from_slice(b"before")?;
    push_standings(out, entries)?;
    out.extend_from_slice(b"\n")?;
    Ok(())
}

/// Puts the line of where variables stand after a point at the end. The only refusal is want of memory.
#[tactic(auto, using(crate::proofs::PrintedLines::after_pushed))]
pub fn push_after(out: &mut Vec<u8>, entries: &[(u32, Place)]) -> Result<(), NoMemory>
    ensures { OnOk result (out.new.items ≡ out.old.items ++ line_text (AfterLine (standings_of entries.now))) }
{
    out.extend_from_slice(b"after")?;
    push_standings(out, entries)?;
    out.extend_from_slice(b"\n")?;
    Ok(())
}

/// Puts the line of the variables that are spilled at a point at the end. The only refusal is want of memory.
#[tactic(auto, using(crate::proofs::PrintedLines::spilled_pushed))]
pub fn push_spilled(out: &mut Vec<u8>, variables: &[u32]) -> Result<(), NoMemory>
    ensures { OnOk result (out.new.items ≡ out.old.items ++ line_text (SpilledLine variables.now)) }
{
    out.extend_from_slice(b"spilled")?;
    push_numbers(out, variables)?;
    out.extend_from_slice(b"\n")?;
    Ok(())
}

// ---- blocks and ops

/// Puts the line of a block at the end. The only refusal is want of memory.
#[tactic(auto, using(crate::proofs::PrintedLines::block_pushed))]
pub fn push_block(out: &mut Vec<u8>, number: u32) -> Result<(), NoMemory>
    ensures { OnOk result (out.new.items ≡ out.old.items ++ line_text (BlockLine number)) }
{
    out.extend_from_slice(b"block")?;
    push_next(out, number)?;
    out.extend_from_slice(b"\n")?;
    Ok(())
}

/// Puts the line of a point at the end: its number, its address, and its op. The only refusal is want of memory.
#[tactic(auto, using(crate::proofs::PrintedLines::point_pushed))]
pub fn push_point(out: &mut Vec<u8>, number: u32, address: u32, op: &Op) -> Result<(), NoMemory>
    ensures { OnOk result (out.new.items ≡ out.old.items ++ line_text (PointLine number address op.now)) }
{
    out.extend_from_slice(b"point")?;
    push_next(out, number)?;
    push_next_address(out, address)?;
    push_op(out, op)?;
    out.extend_from_slice(b"\n")?;
    Ok(())
}
