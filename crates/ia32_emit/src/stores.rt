//! The row of an element that is written.

ghost use Rattle.std.specs.Prelude.{◌≡◌, ◌++◌, OnOk};
ghost use Rattle.ia32_rows.specs.Rows.{store_row};
ghost use Rattle.ia32_emit.specs.Locations.{place_of};

use crate::checks::{element, emit_checking, index_register};
use crate::locations::{Location, target_of};
use crate::storing::emit_store_at;
use flow_graph::Bits;
use ia32_insn::Item;
use pcc_base::NoMemory;

/// A value to an element of an array.
pub fn emit_store(
    out: &mut Vec<Item>,
    bits: Bits,
    array: Location,
    index: Location,
    value: Location,
) -> Result<(), NoMemory>
    ensures { OnOk result (out.new.items
        ≡ out.old.items ++ store_row bits (place_of array) (place_of index) (place_of value)) }
{
    emit_checking(out, array, index)?;
    let to = element(bits, target_of(array), index_register(index));
    emit_store_at(out, bits, to, value)
}
