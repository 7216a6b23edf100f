//! Where everything stands in an image.

ghost use Rattle.std.specs.Prelude.{◌≡◌, ◌<◌, ◌+◌, ◌^◌, ℕ, IfOk, Some, length, map, slice_get};
ghost use Rattle.ia32_insn.specs.Items.{IsOrder};
ghost use Rattle.ia32_asm.specs.declared.section.Section.{Section};
ghost use Rattle.elf_link.specs.Parts.{CanHold, object_of, order_of, sections_size};
ghost use Rattle.elf_link.specs.Placed.{AreAddresses, AreNumbered, addresses_from};

use crate::addresses::{Addresses, WORD_BYTES, function_of, objects_from};
use elf_image::{STACK_BYTES, TEXT_ADDRESS};
use ia32_asm::Section;
use pcc_base::{DataObject, NoMemory};
use std::alloc::Global;

/// The bytes of the start, which the text begins with.
pub(crate) const START_BYTES: u32 = 29;

/// The bytes of the routines, in the order of the text.
const PUTCHAR_BYTES: u32 = 29;

const GETCHAR_BYTES: u32 = 33;

const EXIT_BYTES: u32 = 11;

const CHECK_BYTES: u32 = 2;

/// The bytes of a page.
const PAGE: u32 = 4096;

/// The addresses of sections that stand one behind the other from an address on, by the numbers of their functions, and
/// where they end.
fn functions_from(
    alloc: Global,
    sections: &Vec<Section>,
    start: u32,
) -> Result<(Vec<u32>, u32), NoMemory>
    requires named { (i : ℕ) (s : Section) → slice_get sections.now.items i ≡ Some s → 0 < length s.symbols.items }
    requires order { IsOrder (length sections.now.items) (order_of sections.now.items) }
    requires room { start + sections_size sections.now.items < 2 ^ 32 }
    ensures many { IfOk result (λ r. length r.0.items ≡ length sections.now.items) }
    ensures addresses { IfOk result (λ r. AreNumbered (order_of sections.now.items)
        (addresses_from start sections.now.items) r.0.items) }
    ensures end { IfOk result (λ r. r.1 ≡ start + sections_size sections.now.items) }
{
    let mut addresses = Vec::new(alloc);
    addresses.resize(sections.len(), 0)?;
    let mut address = start;
    for section in sections {
        addresses[function_of(section)] = address;
        address += section.bytes.len() as u32;
    }
    Ok((addresses, address))
}

/// Where everything stands.
pub(crate) fn addresses_of(
    alloc: Global,
    sections: &Vec<Section>,
    objects: &Vec<DataObject>,
) -> Result<Addresses, NoMemory>
    requires named { (i : ℕ) (s : Section) → slice_get sections.now.items i ≡ Some s → 0 < length s.symbols.items }
    requires order { IsOrder (length sections.now.items) (order_of sections.now.items) }
    requires code { sections_size sections.now.items < 2 ^ 30 }
    requires held { CanHold (map object_of objects.now.items) }
    ensures { IfOk result (AreAddresses sections.now.items (map object_of objects.now.items)) }
{
    let (functions, putchar) = functions_from(alloc, sections, TEXT_ADDRESS + START_BYTES)?;
    let getchar = putchar + PUTCHAR_BYTES;
    let exit = getchar + GETCHAR_BYTES;
    let check = exit + EXIT_BYTES;
    let text_size = check + CHECK_BYTES - TEXT_ADDRESS;
    let depth = TEXT_ADDRESS + text_size.next_multiple_of(PAGE);
    let (objects, data_end) = objects_from(alloc, objects, depth + WORD_BYTES)?;
    let stack = depth + (data_end - depth).next_multiple_of(WORD_BYTES) + STACK_BYTES;
    Ok(Addresses {
        functions,
        objects,
        depth,
        putchar,
        getchar,
        exit,
        check,
        stack,
    })
}
