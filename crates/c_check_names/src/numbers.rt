//! The numbers that objects and functions have.

ghost use Rattle.std.specs.Prelude.{◌≡◌, ◌∷◌, ◌++◌, [], IfOk, OnOk};
ghost use Rattle.c_typing.specs.Library.{number_among};
ghost use Rattle.c_check_names.specs.Views.{entity_of, with_entity};

use crate::entity::Entity;
use indexmap::IndexSet;
use pcc_base::NoMemory;
use std::alloc::Global;
use std::marker::Model;

/// A count that fits 32 bits, as every number of a typed tree does.
pub fn number(count: usize) -> Result<u32, NoMemory>
    ensures { IfOk result (λ n. n ≡ count) }
{
    // No caller meets this: what is numbered has a token of its own, and a text has at most 65,536.
    if count > u32::MAX as usize {
        return Err(NoMemory);
    }
    Ok(count as u32)
}

/// The objects and functions that have numbers, in order.
#[derive(Drop)]
pub struct Numbers {
    objects: IndexSet<Entity>,
    functions: IndexSet<Entity>,
}

impl Model for Numbers {
    ghost use Rattle.std.specs.Prelude.{map};
    ghost use Rattle.c_typing.specs.Names as typing;

    ghost Value = { typing.Numbers };

    ghost use Rattle.c_check_names.specs.Views.{entity_of};

    ghost view = { λ n. record {
      objects = map entity_of n.objects.keys;
      functions = map entity_of n.functions.keys;
    } };
}

impl Numbers {
    /// Nothing has a number.
    pub fn new(alloc: Global) -> Numbers
        ensures objects { result.objects ≡ [] }
        ensures functions { result.functions ≡ [] }
    {
        Numbers {
            objects: IndexSet::new(alloc),
            functions: IndexSet::new(alloc),
        }
    }

    /// One more object has a number, unless it has one.
    pub fn add_object(&mut self, entity: Entity) -> Result<(), NoMemory>
        ensures { OnOk result (self.new
            ≡ record self.old { objects = with_entity self.old.objects (entity_of entity) }) }
    {
        self.objects.insert(entity)?;
        Ok(())
    }

    /// One more function has a number, unless it has one.
    pub fn add_function(&mut self, entity: Entity) -> Result<(), NoMemory>
        ensures { OnOk result (self.new
            ≡ record self.old { functions = with_entity self.old.functions (entity_of entity) }) }
    {
        self.functions.insert(entity)?;
        Ok(())
    }

    /// The number of an object, and how many have one where it has none.
    pub fn object(&self, entity: &Entity) -> Result<u32, NoMemory>
        ensures { IfOk result (λ n. n ≡ number_among self.now.objects (entity_of entity.now)) }
    {
        match self.objects.get_index_of(entity) {
            Some(place) => number(place),
            None => number(self.objects.len()),
        }
    }

    /// The number of a function, and how many have one where it has none.
    pub fn function(&self, entity: &Entity) -> Result<u32, NoMemory>
        ensures { IfOk result (λ n. n ≡ number_among self.now.functions (entity_of entity.now)) }
    {
        match self.functions.get_index_of(entity) {
            Some(place) => number(place),
            None => number(self.functions.len()),
        }
    }
}
