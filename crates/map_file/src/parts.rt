//! Which objects, arrays and variables a map may have.

ghost use Rattle.std.specs.Prelude.{All, map};
ghost use Rattle.std.specs.Bool.{Decides};
ghost use Rattle.map_text.specs.Maps.{AreElements, IsMapArray, IsMapObject, IsMapVariable};
ghost use Rattle.map_file.specs.Views.{array_of, object_of, variable_of};

use crate::file::{MapArray, MapName, MapObject, MapVar};
use crate::names::is_name;

/// Whether there is one element at least, and each is of 1, 2 or 4 bytes.
fn are_elements(count: u32, bytes: u8) -> bool
    ensures { Decides result (AreElements count bytes) }
{
    count >= 1 && (bytes == 1 || bytes == 2 || bytes == 4)
}

/// Whether a map may have an object.
fn is_object(object: MapObject) -> bool
    ensures { Decides result (IsMapObject (object_of object)) }
{
    are_elements(object.count, object.bytes)
}

/// Whether a map may have each of these objects.
pub(crate) fn are_objects(objects: &[MapObject]) -> bool
    ensures { Decides result (All IsMapObject (map object_of objects.now)) }
{
    objects.iter().all(|object| is_object(*object))
}

/// Whether a map may have a frame array.
fn is_array(array: MapArray) -> bool
    ensures { Decides result (IsMapArray (array_of array)) }
{
    array.offset < 0 && are_elements(array.count, array.bytes)
}

/// Whether a map may have each of these frame arrays.
pub(crate) fn are_arrays(arrays: &[MapArray]) -> bool
    ensures { Decides result (All IsMapArray (map array_of arrays.now)) }
{
    arrays.iter().all(|array| is_array(*array))
}

/// Whether a map may have a variable.
fn is_variable(variable: &MapVar) -> bool
    ensures { Decides result (IsMapVariable (variable_of variable.now)) }
{
    match &variable.name {
        MapName::Scalar(name) => is_name(name.as_bytes()),
        MapName::Base(name) => is_name(name.as_bytes()),
        MapName::Index(name) => is_name(name.as_bytes()),
        MapName::Temporary => true,
    }
}

/// Whether a map may have each of these variables.
pub(crate) fn are_variables(variables: &[MapVar]) -> bool
    ensures { Decides result (All IsMapVariable (map variable_of variables.now)) }
{
    variables.iter().all(|variable| is_variable(variable))
}
