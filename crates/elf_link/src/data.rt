ghost use Rattle.std.specs.Prelude.{◌≡◌, ◌≤◌, ◌++◌, IfOk, OnOk, map};
ghost use Rattle.ia32_insn.specs.Items.{data_bytes, element_bytes, elements_size, object_bytes};
ghost use Rattle.elf_link.specs.Parts.{CanHold, object_of};

use crate::addresses::elements_size;
use pcc_base::{DataObject, NoMemory};
use std::alloc::Global;

/// Puts the elements of an object at the end, each with its lowest bytes.
fn put_elements(bytes: &mut Vec<u8>, object: &DataObject) -> Result<(), NoMemory>
    requires { object.now.width ≤ 4 }
    ensures { OnOk result (bytes.new.items ≡ bytes.old.items ++ element_bytes (object_of object.now)) }
{
    for element in &object.elements {
        bytes.extend_from_slice(&element.to_le_bytes()[..object.width as usize])?;
    }
    Ok(())
}

/// Puts an object at the end: the number of its elements, the elements, and zeros up to a whole word.
fn put_object(bytes: &mut Vec<u8>, object: &DataObject) -> Result<(), NoMemory>
    requires narrow { 1 ≤ object.now.width }
    requires wide { object.now.width ≤ 4 }
    requires size { elements_size (object_of object.now) ≤ 16777216 }
    ensures { OnOk result (bytes.new.items ≡ bytes.old.items ++ object_bytes (object_of object.now)) }
{
    let count = object.elements.len() as u32;
    bytes.extend_from_slice(&count.to_le_bytes())?;
    put_elements(bytes, object)?;
    let padding = elements_size(object) - object.width as u32 * count;
    bytes.resize(bytes.len() + padding as usize, 0)?;
    Ok(())
}

/// The data of a program: the depth word, which is 0, and the objects.
pub(crate) fn data_of(alloc: Global, objects: &Vec<DataObject>) -> Result<Vec<u8>, NoMemory>
    requires { CanHold (map object_of objects.now.items) }
    ensures { IfOk result (λ bytes. bytes.items ≡ data_bytes (map object_of objects.now.items)) }
{
    let mut bytes = Vec::new(alloc);
    bytes.resize(4, 0)?;
    for object in objects {
        put_object(&mut bytes, object)?;
    }
    Ok(bytes)
}
