//! Linkage (C99 6.2.2).

ghost use Rattle.std.specs.Prelude.{◌≡◌, option_map, IfOk, Some};
ghost use Rattle.c_typing.specs.Library.{external, OfFile};
ghost use Rattle.c_typing.specs.Names.{as_before, entity_seen, is_function, is_other};
ghost use Rattle.c_check_names.specs.Views.{declared_of, entity_of, meaning_of};

use crate::entity::{Entity, LibraryFunction};
use crate::meaning::{Declared, Meaning};
use crate::same::same_entity;
use pcc_base::NoMemory;
use std::alloc::Global;

/// What a name of internal linkage names: one thing in the file at this position.
pub fn internal(alloc: Global, file: u32, name: &[u8]) -> Result<Entity, NoMemory>
    ensures { IfOk result (λ e. entity_of e ≡ OfFile file name.now) }
{
    let bytes = name.to_vec(alloc)?;
    Ok(Entity::OfFile(file, bytes))
}

/// What a name of external linkage names: the three names are the library's in every file.
pub fn external(alloc: Global, name: &[u8]) -> Result<Entity, NoMemory>
    ensures { IfOk result (λ e. entity_of e ≡ external name.now) }
{
    if name == b"putchar".as_slice() {
        return Ok(Entity::Library(LibraryFunction::Putchar));
    }
    if name == b"getchar".as_slice() {
        return Ok(Entity::Library(LibraryFunction::Getchar));
    }
    if name == b"exit".as_slice() {
        return Ok(Entity::Library(LibraryFunction::Exit));
    }
    Ok(Entity::Shared(name.to_vec(alloc)?))
}

/// The thing that a name means, where it has linkage or static storage.
pub fn entity_meant(meaning: Option<&Meaning>) -> Option<&Entity>
    ensures { option_map (λ e. entity_of e.now) result
        ≡ entity_seen (option_map (λ m. meaning_of m.now) meaning.entry) }
{
    match meaning {
        None | Some(Meaning::Local(_, _) | Meaning::LocalArray(_, _)) => None,
        Some(
            Meaning::Object(entity, _)
            | Meaning::ObjectArray(entity, _)
            | Meaning::Function(entity, _),
        ) => Some(entity),
    }
}

/// What a name names already, and otherwise something of external linkage (C99 6.2.2p4).
pub fn as_before(alloc: Global, name: &[u8], meaning: Option<&Meaning>) -> Result<Entity, NoMemory>
    ensures { IfOk result (λ e. entity_of e
        ≡ as_before name.now (option_map (λ m. meaning_of m.now) meaning.entry)) }
{
    match meaning {
        None | Some(Meaning::Local(_, _) | Meaning::LocalArray(_, _)) => external(alloc, name),
        Some(
            Meaning::Object(entity, _)
            | Meaning::ObjectArray(entity, _)
            | Meaning::Function(entity, _),
        ) => entity.copy(alloc),
    }
}

/// Whether a thing is another one than what is seen.
pub fn is_other(entity: &Entity, seen: Option<&Entity>) -> bool
    ensures { result ≡ is_other (entity_of entity.now) (option_map (λ e. entity_of e.now) seen.entry) }
{
    match seen {
        None => false,
        Some(seen) => !same_entity(seen, entity),
    }
}

/// Whether a declared type is a function's.
pub fn is_function(declared: &Declared) -> bool
    ensures { result ≡ is_function (declared_of declared.now) }
{
    match declared {
        Declared::Value(_) | Declared::Array(_, _) => false,
        Declared::Function(_, _) => true,
    }
}
