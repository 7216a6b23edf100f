//! The static objects of a program, as an image has them.

ghost use Rattle.std.specs.Prelude.{◌≡◌, IfOk, map};
ghost use Rattle.c_tree.specs.Erased.{object_of as typed_object};
ghost use Rattle.c_tree.specs.Objects.{data_object};
ghost use Rattle.c_tree.specs.Sizes.{bytes_of};
ghost use Rattle.pcc_base.specs.Objects.{object_of};

use c_tree::{IntegerType, StaticObject};
use pcc_base::{DataObject, NoMemory};
use std::alloc::Global;

/// How many bytes an element of a type has.
fn bytes_of(t: IntegerType) -> u8
    ensures { result ≡ bytes_of t }
{
    match t {
        IntegerType::Char => 1,
        IntegerType::Short => 2,
        IntegerType::Int | IntegerType::UnsignedInt => 4,
    }
}

/// An object with the bytes of an element of its type.
fn object(alloc: Global, object: &StaticObject) -> Result<DataObject, NoMemory>
    ensures { IfOk result (λ made. object_of made ≡ data_object (typed_object object.now)) }
{
    Ok(DataObject {
        width: bytes_of(object.element),
        elements: object.elements.as_slice().to_vec(alloc)?,
    })
}

/// The objects, in order.
pub(crate) fn objects_of(
    alloc: Global,
    objects: &[StaticObject],
) -> Result<Vec<DataObject>, NoMemory>
    ensures { IfOk result (λ v. map object_of v.items ≡ map data_object (map typed_object objects.now)) }
{
    let mut data = Vec::new(alloc);
    for static_object in objects {
        let made = object(alloc, static_object)?;
        data.push(made)?;
    }
    Ok(data)
}
