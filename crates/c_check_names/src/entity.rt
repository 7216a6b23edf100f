//! What a program names: functions and objects of static storage (C99 6.2.2 and 6.2.4).

ghost use Rattle.std.specs.Prelude.{◌≡◌, IfOk};
ghost use Rattle.c_check_names.specs.Views.{entity_of};

use pcc_base::NoMemory;
use std::alloc::Global;

/// A function of the library, which is known without a declaration (C99 7.19.7.9, 7.19.7.6 and 7.20.4.3).
#[derive(Clone, Copy, PartialEq, Eq, Hash)]
pub enum LibraryFunction {
    Putchar,
    Getchar,
    Exit,
}

/// A function, or an object of static storage.
#[derive(PartialEq, Eq, Hash, Drop)]
pub enum Entity {
    Library(LibraryFunction),
    /// Of external linkage: one in all files, by its name (C99 6.2.2p2).
    Shared(Vec<u8>),
    /// Of internal linkage: one in a file, by the file's position and its name.
    OfFile(u32, Vec<u8>),
    /// Without linkage: a static object of a block, or a string literal, by the file, line and column of its first
    /// token.
    At(u32, u32, u32),
}

impl Entity {
    /// Another one that is the same.
    pub fn copy(&self, alloc: Global) -> Result<Entity, NoMemory>
        ensures { IfOk result (λ e. entity_of e ≡ entity_of self.now) }
    {
        match self {
            Entity::Library(function) => Ok(Entity::Library(*function)),
            Entity::Shared(name) => Ok(Entity::Shared(name.as_slice().to_vec(alloc)?)),
            Entity::OfFile(file, name) => {
                Ok(Entity::OfFile(*file, name.as_slice().to_vec(alloc)?))
            }
            Entity::At(file, line, column) => Ok(Entity::At(*file, *line, *column)),
        }
    }
}
