ghost use Rattle.std.specs.Prelude.{◌≡◌, IfOk, vec_len};
ghost use Rattle.ia32_asm.specs.Sections.{CanAssemble, IsSection, items_size};

use crate::offsets::{Offsets, offsets_of};
use crate::piece::{distance_in, put_bytes, put_relocation};
use crate::section::{Section, Symbol};
use ia32_insn::Item;
use pcc_base::NoMemory;
use std::alloc::Global;

/// The section of a function with these items, in a time that grows as they do. A jump or call always has a
/// distance of 32 bits. The only refusal is want of memory.
pub fn assemble(alloc: Global, function: u32, items: &Vec<Item>) -> Result<Section, NoMemory>
    requires { CanAssemble items.now.items }
    ensures section { IfOk result (λ section. IsSection function items.now.items section) }
    ensures size { IfOk result (λ section. vec_len section.bytes ≡ items_size items.now.items) }
{
    let Offsets {
        labels,
        points,
        size,
    } = offsets_of(alloc, items)?;
    let mut bytes = Vec::with_capacity(alloc, size as usize)?;
    let mut relocations = Vec::new(alloc);
    for item in items {
        let distance = distance_in(item, &labels, bytes.len() as u32);
        put_bytes(&mut bytes, item, distance)?;
        put_relocation(&mut relocations, item, bytes.len() as u32)?;
    }
    let symbols = vec![in alloc;
        Symbol {
            function,
            offset: 0
        },
    ]?;
    Ok(Section {
        bytes,
        symbols,
        relocations,
        points,
    })
}
