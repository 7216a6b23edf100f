ghost use Rattle.std.specs.Prelude.{◌≡◌, ◌<◌, ◌≤◌, ◌+◌, ◌^◌, ℕ, IfOk, Some, length, map, slice_get, slice_index};
ghost use Rattle.ia32_insn.specs.Items.{IsOrder};
ghost use Rattle.ia32_asm.specs.declared.section.Section.{Section};
ghost use Rattle.elf_link.specs.Parts.{order_of, sections_size};
ghost use Rattle.elf_link.specs.Placed.{AreNumbered};
ghost use Rattle.elf_link.specs.Laid.{points_from};

use crate::addresses::function_of;
use ia32_asm::Section;
use pcc_base::NoMemory;
use std::alloc::Global;

/// The offsets of a section that stands at an address, as addresses.
fn moved(alloc: Global, offsets: &Vec<u32>, address: u32) -> Result<Vec<u32>, NoMemory>
    requires { (p : ℕ) → address + slice_index offsets.now.items p < 2 ^ 32 }
    ensures { IfOk result (λ addresses. addresses.items ≡ map (λ p. address + p) offsets.now.items) }
{
    let mut addresses = Vec::with_capacity(alloc, offsets.len())?;
    for offset in offsets {
        addresses.push(address + *offset)?;
    }
    Ok(addresses)
}

/// So many empty vectors.
fn empty_vectors(alloc: Global, count: usize) -> Result<Vec<Vec<u32>>, NoMemory>
    ensures { IfOk result (λ vectors. length vectors.items ≡ count) }
{
    let mut vectors = Vec::with_capacity(alloc, count)?;
    for _ in 0..count {
        vectors.push(Vec::new(alloc))?;
    }
    Ok(vectors)
}

/// The addresses of the points of sections that stand one behind the other from an address on, by the numbers of their
/// functions.
pub(crate) fn points_of(
    alloc: Global,
    sections: &Vec<Section>,
    start: u32,
) -> Result<Vec<Vec<u32>>, NoMemory>
    requires named { (i : ℕ) (s : Section) → slice_get sections.now.items i ≡ Some s → 0 < length s.symbols.items }
    requires order { IsOrder (length sections.now.items) (order_of sections.now.items) }
    requires within { (k : ℕ) (s : Section) → slice_get sections.now.items k ≡ Some s
        → (p : ℕ) → slice_index s.points.items p ≤ length s.bytes.items }
    requires room { start + sections_size sections.now.items < 2 ^ 32 }
    ensures many { IfOk result (λ points. length points.items ≡ length sections.now.items) }
    ensures points { IfOk result (λ points. AreNumbered (order_of sections.now.items)
        (points_from start sections.now.items) (map (λ v. v.items) points.items)) }
{
    let mut points = empty_vectors(alloc, sections.len())?;
    let mut address = start;
    for section in sections {
        let addresses = moved(alloc, &section.points, address)?;
        points[function_of(section)] = addresses;
        address += section.bytes.len() as u32;
    }
    Ok(points)
}
