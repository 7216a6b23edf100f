ghost use Rattle.std.specs.Prelude.{◌<◌, ◌^◌, IfOk, OnOk};
ghost use Rattle.ia32_asm.specs.Sections.{CanAssemble, IsSpelled};
ghost use Rattle.ia32_asm.specs.Pieces.{Adds, AreLaid, IsPut};

use crate::piece::size_of;
use ia32_insn::Item;
use pcc_base::NoMemory;
use std::alloc::Global;

/// Where the labels and the points of items stand: by number the offset, or 0 where there is none.
#[derive(Drop)]
pub(crate) struct Offsets {
    pub labels: Vec<u32>,
    pub points: Vec<u32>,
    /// How many bytes the items have.
    pub size: u32,
}

/// Writes an entry at a place, with zeros before it where the list is too short.
fn put_entry(entries: &mut Vec<u32>, place: u32, entry: u32) -> Result<(), NoMemory>
    ensures { OnOk result (IsPut entries.old.items place entry entries.new.items) }
{
    let place = place as usize;
    if entries.len() <= place {
        entries.resize(place + 1, 0)?;
    }
    entries[place] = entry;
    Ok(())
}

/// Lays one more item behind the others.
fn add(offsets: &mut Offsets, item: &Item) -> Result<(), NoMemory>
    requires spelled { IsSpelled item.now }
    requires room { offsets.old.size < 2 ^ 30 }
    ensures { OnOk result (Adds item.now offsets.old offsets.new) }
{
    match *item {
        Item::Label(label) => put_entry(&mut offsets.labels, label, offsets.size),
        Item::Point(point) => put_entry(&mut offsets.points, point, offsets.size),
        Item::Plain(_)
        | Item::JumpTo(_)
        | Item::JumpIf(_, _)
        | Item::CallFunction(_)
        | Item::CallStub(_)
        | Item::JumpTrap(_)
        | Item::AddressOf(_, _) => {
            offsets.size += size_of(item);
            Ok(())
        }
    }
}

/// Where the labels and the points of items stand, before their bytes are known.
pub(crate) fn offsets_of(alloc: Global, items: &Vec<Item>) -> Result<Offsets, NoMemory>
    requires { CanAssemble items.now.items }
    ensures { IfOk result (AreLaid items.now.items) }
{
    let mut offsets = Offsets {
        labels: Vec::new(alloc),
        points: Vec::new(alloc),
        size: 0,
    };
    for item in items {
        add(&mut offsets, item)?;
    }
    Ok(offsets)
}
