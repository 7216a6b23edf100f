ghost use Rattle.std.specs.Prelude.{◌≡◌, ◌<◌, ◌≤◌, ◌+◌, ◌^◌, ◌++◌, ℕ, IfOk, OnOk, Some, length, slice_get, vec_len};
ghost use Rattle.ia32_insn.specs.Items.{IsOrder};
ghost use Rattle.ia32_asm.specs.Sections.{CanAssemble, items_size, resolved, with_word};
ghost use Rattle.elf_link.specs.Parts.{order_of, sections_size};
ghost use Rattle.elf_link.specs.Linking.{FitsIn};
ghost use Rattle.elf_link.specs.Symbols.{symbols_of};
ghost use Rattle.elf_link.specs.Placed.{AreInText};
ghost use Rattle.elf_link.specs.Laid.{AreNamed, HasCode, HasItems, code_from};
ghost use Rattle.ia32_asm.specs.declared.section.Section.{Section};

use crate::addresses::Addresses;
use crate::function_addresses::START_BYTES;
use crate::routines::{check_items, exit_items, getchar_items, putchar_items};
use crate::start::start_items;
use elf_image::TEXT_ADDRESS;
use ia32_asm::{Section, assemble};
use ia32_insn::Item;
use pcc_base::NoMemory;
use std::alloc::Global;

/// Writes a word over four bytes, the lowest first.
fn write_word(bytes: &mut Vec<u8>, offset: usize, word: u32)
    requires { offset + 4 ≤ vec_len bytes.old }
    ensures { bytes.new.items ≡ with_word offset word bytes.old.items }
{
    bytes[offset..offset + 4].copy_from_slice(&word.to_le_bytes());
}

/// Puts the bytes of a section that stands at an address at the end, with the words that it awaits.
fn put_section(
    text: &mut Vec<u8>,
    section: &Section,
    address: u32,
    addresses: &Addresses,
) -> Result<(), NoMemory>
    requires fits { FitsIn (length addresses.now.functions.items) (length addresses.now.objects.items) section.now }
    requires room { address + length section.now.bytes.items < 2 ^ 32 }
    ensures { OnOk result (text.new.items ≡ text.old.items
        ++ resolved (symbols_of addresses.now) address section.now.relocations.items section.now.bytes.items) }
{
    let start = text.len();
    text.extend_from_slice(&section.bytes)?;
    for relocation in &section.relocations {
        write_word(
            text,
            start + relocation.at as usize,
            addresses.word(relocation, address),
        );
    }
    Ok(())
}

/// Puts the bytes of sections at the end, one behind the other from an address on.
fn put_sections(
    text: &mut Vec<u8>,
    sections: &Vec<Section>,
    start: u32,
    addresses: &Addresses,
) -> Result<(), NoMemory>
    requires each { (k : ℕ) (s : Section) → slice_get sections.now.items k ≡ Some s
        → FitsIn (length addresses.now.functions.items) (length addresses.now.objects.items) s }
    requires room { start + sections_size sections.now.items < 2 ^ 32 }
    ensures { OnOk result (text.new.items
        ≡ text.old.items ++ code_from (symbols_of addresses.now) start sections.now.items) }
{
    let mut address = start;
    for section in sections {
        put_section(text, section, address, addresses)?;
        address += section.bytes.len() as u32;
    }
    Ok(())
}

/// Puts the bytes of a routine that stands at an address at the end.
fn put_routine(
    text: &mut Vec<u8>,
    alloc: Global,
    items: &Vec<Item>,
    address: u32,
    addresses: &Addresses,
) -> Result<(), NoMemory>
    requires can { CanAssemble items.now.items }
    requires named { AreNamed addresses.now items.now.items }
    requires room { address + items_size items.now.items < 2 ^ 32 }
    ensures { OnOk result (HasItems addresses.now address items.now.items text.old.items text.new.items) }
{
    let section = assemble(alloc, 0, items)?;
    put_section(text, &section, address, addresses)
}

/// The text of a program: the start, the functions, and the other routines.
pub(crate) fn text_of(
    alloc: Global,
    sections: &Vec<Section>,
    addresses: &Addresses,
    main: u32,
) -> Result<Vec<u8>, NoMemory>
    requires each { (k : ℕ) (s : Section) → slice_get sections.now.items k ≡ Some s
        → FitsIn (length addresses.now.functions.items) (length addresses.now.objects.items) s }
    requires main_there { main < length sections.now.items }
    requires order { IsOrder (length sections.now.items) (order_of sections.now.items) }
    requires size { sections_size sections.now.items < 2 ^ 30 }
    requires laid { AreInText sections.now.items addresses.now }
    ensures { IfOk result (λ text. HasCode sections.now.items main addresses.now text.items) }
{
    let mut text = Vec::new(alloc);
    let start = start_items(alloc, addresses.stack, addresses.depth, main)?;
    put_routine(&mut text, alloc, &start, TEXT_ADDRESS, addresses)?;
    put_sections(&mut text, sections, TEXT_ADDRESS + START_BYTES, addresses)?;
    let putchar = putchar_items(alloc)?;
    put_routine(&mut text, alloc, &putchar, addresses.putchar, addresses)?;
    let getchar = getchar_items(alloc)?;
    put_routine(&mut text, alloc, &getchar, addresses.getchar, addresses)?;
    let exit = exit_items(alloc)?;
    put_routine(&mut text, alloc, &exit, addresses.exit, addresses)?;
    let check = check_items(alloc)?;
    put_routine(&mut text, alloc, &check, addresses.check, addresses)?;
    Ok(text)
}
