ghost use Rattle.std.specs.Prelude.{◌≡◌, ◌<◌, ◌≤◌, ◌+◌, ◌^◌, IfOk, Some, length, map};
ghost use Rattle.ia32_insn.specs.Items.{elements_size, object_addresses};
ghost use Rattle.ia32_asm.specs.Sections.{target_address, word_for};
ghost use Rattle.elf_link.specs.Parts.{CanHold, IsThere, function_of, object_of, objects_size};
ghost use Rattle.elf_link.specs.Symbols.{symbols_of};

use ia32_asm::{Relocation, Section, Target};
use ia32_insn::Stub;
use pcc_base::{DataObject, NoMemory};
use std::alloc::Global;

/// The bytes of a word: the depth word, and the header of an object.
pub const WORD_BYTES: u32 = 4;

/// Where everything stands that code names, and the end of the stack.
#[derive(Drop)]
pub struct Addresses {
    /// Of each function, by its number.
    pub functions: Vec<u32>,
    /// Of element 0 of each static object.
    pub objects: Vec<u32>,
    /// Of the depth word.
    pub depth: u32,
    /// Of the routine `putchar`.
    pub putchar: u32,
    /// Of the routine `getchar`.
    pub getchar: u32,
    /// Of the routine `exit`.
    pub exit: u32,
    /// Of the trap of a failed check.
    pub check: u32,
    /// The end of the stack.
    pub stack: u32,
}

impl Addresses {
    fn stub(&self, stub: Stub) -> u32
        ensures { Some result ≡ target_address (symbols_of self.now) (Target.Stub stub) }
    {
        match stub {
            Stub::Putchar => self.putchar,
            Stub::Getchar => self.getchar,
            Stub::Exit => self.exit,
        }
    }

    fn of(&self, target: Target) -> u32
        requires { IsThere (length self.now.functions.items) (length self.now.objects.items) target }
        ensures { target_address (symbols_of self.now) target ≡ Some result }
    {
        match target {
            Target::Function(function) => self.functions[function as usize],
            Target::Object(object) => self.objects[object as usize],
            Target::Stub(stub) => self.stub(stub),
            Target::Check => self.check,
            Target::Depth => self.depth,
        }
    }

    /// The word that a relocation awaits in a section at an address: the target's address, or its distance
    /// from the end of the word.
    pub fn word(&self, relocation: &Relocation, section: u32) -> u32
        requires there { IsThere (length self.now.functions.items) (length self.now.objects.items)
            relocation.now.target }
        requires room { section + relocation.now.at + 4 < 2 ^ 32 }
        ensures { result ≡ word_for (symbols_of self.now) section relocation.now }
    {
        let address = self.of(relocation.target);
        if relocation.relative {
            address.wrapping_sub(section + relocation.at + WORD_BYTES)
        } else {
            address
        }
    }
}

/// The bytes of an object's elements, in whole words.
pub fn elements_size(object: &DataObject) -> u32
    requires size { elements_size (object_of object.now) ≤ 16777216 }
    requires width { 1 ≤ object.now.width }
    ensures { result ≡ elements_size (object_of object.now) }
{
    (object.width as u32 * object.elements.len() as u32).next_multiple_of(WORD_BYTES)
}

/// The number of the function that a section's symbol names.
pub fn function_of(section: &Section) -> usize
    requires { 0 < length section.now.symbols.items }
    ensures { result ≡ function_of section.now }
{
    section.symbols[0].function as usize
}

/// The addresses of the elements of objects that stand one behind the other from an address on, and where
/// they end.
pub(crate) fn objects_from(
    alloc: Global,
    objects: &Vec<DataObject>,
    start: u32,
) -> Result<(Vec<u32>, u32), NoMemory>
    requires held { CanHold (map object_of objects.now.items) }
    requires room { start < 2 ^ 31 }
    ensures addresses { IfOk result (λ r. r.0.items ≡ object_addresses start (map object_of objects.now.items)) }
    ensures end { IfOk result (λ r. r.1 ≡ start + objects_size (map object_of objects.now.items)) }
{
    let mut addresses = Vec::with_capacity(alloc, objects.len())?;
    let mut address = start;
    for object in objects {
        addresses.push(address + WORD_BYTES)?;
        address += WORD_BYTES + elements_size(object);
    }
    Ok((addresses, address))
}
