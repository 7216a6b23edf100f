ghost use Rattle.std.specs.Prelude.{◌≡◌, ◌+◌, IfOk, List, map, vec_len};
ghost use Rattle.ia32_insn.specs.declared.item.Item.{Item};
ghost use Rattle.elf_link.specs.Parts.{object_of, order_of, sections_size};
ghost use Rattle.elf_link.specs.Layout.{IsLaidOut};
ghost use Rattle.elf_link.specs.Linking.{AreSections, CanLink, IsLinked};
ghost use Rattle.elf_link.specs.Placed.{routines_size};

use crate::data::data_of;
use crate::function_addresses::{START_BYTES, addresses_of};
use crate::linked::Linked;
use crate::points::points_of;
use crate::text::text_of;
use elf_image::{Image, TEXT_ADDRESS};
use ia32_asm::Section;
use pcc_base::{DataObject, NoMemory};
use std::alloc::Global;

/// The program of these sections and static objects. The sections are those of the functions from 0 on, each once, in
/// the order in which they come to stand in the text, and `main` is the number of the function that the start calls.
/// The word of a relocation, the lowest byte first, takes the place of its four bytes, whatever they were. The only
/// refusal is want of memory.
pub fn link(
    alloc: Global,
    sections: &Vec<Section>,
    objects: &Vec<DataObject>,
    main: u32,
) -> Result<Linked, NoMemory>
    requires { CanLink sections.now.items (map object_of objects.now.items) main }

    // Of any sections: where each stands with its bytes, its words and its points, and the routines and the data.
    ensures layout { IfOk result (λ linked. IsLaidOut sections.now.items (map object_of objects.now.items) main linked) }

    // Of sections that are made of items: the text is that of the items.
    ensures program { IfOk result (λ linked. (functions : List (List Item)) → AreSections functions sections.now.items
        → IsLinked functions (order_of sections.now.items) (map object_of objects.now.items) main linked) }

    // The text has the sections, the start and the routines.
    ensures size { IfOk result (λ linked. vec_len linked.image.text
        ≡ sections_size sections.now.items + routines_size) }
{
    let addresses = addresses_of(alloc, sections, objects)?;
    let text = text_of(alloc, sections, &addresses, main)?;
    let data_bytes = data_of(alloc, objects)?;
    let points = points_of(alloc, sections, TEXT_ADDRESS + START_BYTES)?;
    let image = Image {
        entry: TEXT_ADDRESS,
        text,
        data_bytes,
    };
    Ok(Linked {
        image,
        points,
        objects: addresses.objects,
    })
}
