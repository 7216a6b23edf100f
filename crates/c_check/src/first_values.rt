//! What static objects hold at first (C99 6.7.8 and 6.9.2).

ghost use Rattle.std.specs.Prelude.{◌≡◌, ◌≤◌, ◌∷◌, ◌++◌, [], get_or, map, pos, sum_by, IfOk, OnOk};
ghost use Rattle.c_tree.specs.Erased.{object_of};
ghost use Rattle.c_tree.specs.Sizes.{bytes_of};
ghost use Rattle.c_typing.specs.Library.{Entity as Thing};
ghost use Rattle.c_typing.specs.Numbering.{filled, static_objects};
ghost use Rattle.c_typing.specs.Typed.{object_bytes};
ghost use Rattle.c_check_expressions.specs.Notes.{note_of, stored_of};
ghost use Rattle.c_check.specs.Tables.{described_as, described_by, is_seen_with, known_of};
ghost use Rattle.c_check.specs.Tables.{object_described, test_of, IsKnownOf};

use crate::known::Known;
use crate::tables::Things;
use c_check_expressions::{Note, Stored};
use c_tree::{IntegerType, StaticObject};
use pcc_base::NoMemory;
use std::alloc::Global;

/// A static object whose elements aren't built yet: so many elements, which begin with these values and go on with
/// zeros.
#[derive(Drop)]
pub struct Described {
    pub element: IntegerType,
    pub count: u32,
    pub values: Vec<i32>,
}

/// One more object, which was stored with a definition.
fn push(
    alloc: Global,
    objects: &mut Vec<Described>,
    stored: &Stored,
    values: &[i32],
) -> Result<(), NoMemory>
    ensures { OnOk result (map object_described objects.new.items
        ≡ map object_described objects.old.items ++ described_as (stored_of stored.now) values.now ∷ []) }
{
    let values = values.to_vec(alloc)?;
    let count = small(stored.count)?;
    objects.push(Described {
        element: stored.element,
        count,
        values,
    })?;
    Ok(())
}

/// A count that fits 32 bits.
fn small(count: usize) -> Result<u32, NoMemory>
    ensures { IfOk result (λ n. n ≡ count) }
{
    // No caller meets this: the values and letters that are counted are no more than the bytes of a file.
    if count > u32::MAX as usize {
        return Err(NoMemory);
    }
    Ok(count as u32)
}

/// The object of a note, where it is the first of its thing, and the thing is defined.
fn gather(
    alloc: Global,
    seen: &mut Things,
    objects: &mut Vec<Described>,
    note: &Note,
    known: &Known,
) -> Result<(), NoMemory>
    ensures seen { OnOk result ((e : Thing) → test_of seen.new e
        ≡ is_seen_with (note_of note.now) (test_of seen.old) e) }
    ensures objects { OnOk result (map object_described objects.new.items
        ≡ map object_described objects.old.items ++ described_by (known_of known.now) (test_of seen.old)
        (note_of note.now)) }
{
    match note {
        Note::Uses(_, _) | Note::Defines(_, _) => Ok(()),
        Note::Stores(stored) => {
            if !seen.has(&stored.entity) && known.objects.has(&stored.entity) {
                push(alloc, objects, stored, known.values.of(&stored.entity))?;
            }
            seen.add(alloc, &stored.entity)
        }
    }
}

/// The static objects that notes define, in the order of their numbers.
pub(crate) fn describe(
    alloc: Global,
    notes: &[Note],
    known: &Known,
) -> Result<Vec<Described>, NoMemory>
    requires { IsKnownOf (map note_of notes.now) (known_of known.now) }
    ensures { IfOk result (λ v. map object_described v.items ≡ static_objects (map note_of notes.now)) }
{
    let mut seen = Things::new(alloc);
    let mut objects = Vec::new(alloc);
    'notes: for note in notes {
        gather(alloc, &mut seen, &mut objects, note, known)?;
    }
    Ok(objects)
}

/// How many bytes an element takes.
fn bytes_of(element: IntegerType) -> u64
    ensures value { result ≡ bytes_of element }
    ensures low { result ≤ 4 }
{
    match element {
        IntegerType::Char => 1,
        IntegerType::Short => 2,
        IntegerType::Int | IntegerType::UnsignedInt => 4,
    }
}

/// How many bytes an object takes.
#[tactic(auto, using(crate::proofs::Walks::length_filled))]
fn object_bytes(object: &Described) -> u64
    ensures { result ≡ object_bytes (object_described object.now) }
{
    4 + (u64::from(object.count) * bytes_of(object.element) + 3) / 4 * 4
}

/// How many bytes all objects take.
pub fn arrays_bytes(objects: &[Described]) -> Result<u64, NoMemory>
    ensures { IfOk result (λ n. n ≡ sum_by object_bytes (map object_described objects.now)) }
{
    let mut sum = 0u64;
    let mut left = objects.len();
    'objects: while left > 0 {
        left -= 1;
        // This sum is never refused: an object has fewer than 2^35 bytes, and each has tokens of its own.
        sum = object_bytes(&objects[left])
            .checked_add(sum)
            .ok_or(NoMemory)?;
    }
    Ok(sum)
}

/// The value at a place, or zero where there is none.
fn value_or_zero(values: &[i32], place: u32) -> i32
    ensures { result ≡ get_or values.now place (pos 0) }
{
    let place = place as usize;
    if place < values.len() {
        values[place]
    } else {
        0
    }
}

/// The elements of an object: its values, and then zeros (C99 6.7.8p21).
#[tactic(auto, using(crate::proofs::Walks::filled_more))]
fn elements(alloc: Global, values: &[i32], count: u32) -> Result<Vec<i32>, NoMemory>
    ensures { IfOk result (λ v. v.items ≡ filled count values.now) }
{
    let mut elements = Vec::new(alloc);
    'elements: for place in 0..count {
        elements.push(value_or_zero(values, place))?;
    }
    Ok(elements)
}

/// The objects with their elements.
pub fn built(alloc: Global, described: &[Described]) -> Result<Vec<StaticObject>, NoMemory>
    ensures { IfOk result (λ v. map object_of v.items ≡ map object_described described.now) }
{
    let mut objects = Vec::new(alloc);
    'objects: for one in described {
        objects.push(StaticObject {
            element: one.element,
            elements: elements(alloc, one.values.as_slice(), one.count)?,
        })?;
    }
    Ok(objects)
}
