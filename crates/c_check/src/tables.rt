//! Tables of things.

ghost use Rattle.std.specs.Prelude.{◌≡◌, OnOk};
ghost use Rattle.c_check_names.specs.Views.{entity_of};
ghost use Rattle.c_typing.specs.Library.{Entity as Thing};
ghost use Rattle.c_check.specs.Tables.{no_values, nothing, test_of, values_in, with_thing, with_values};

use c_check_names::Entity;
use indexmap::{IndexMap, IndexSet};
use pcc_base::NoMemory;
use std::alloc::Global;

/// Some things.
#[derive(Drop)]
pub(crate) struct Things {
    things: IndexSet<Entity>,
}

impl Things {
    pub(crate) fn new(alloc: Global) -> Things
        ensures { (e : Thing) → test_of result e ≡ nothing e }
    {
        Things {
            things: IndexSet::new(alloc),
        }
    }

    /// One more thing.
    pub(crate) fn add(&mut self, alloc: Global, entity: &Entity) -> Result<(), NoMemory>
        ensures { OnOk result ((e : Thing) → test_of self.new e
            ≡ with_thing (entity_of entity.now) (test_of self.old) e) }
    {
        let copy = entity.copy(alloc)?;
        self.things.insert(copy)?;
        Ok(())
    }

    /// Whether a thing is among them.
    pub(crate) fn has(&self, entity: &Entity) -> bool
        ensures { result ≡ test_of self.now (entity_of entity.now) }
    {
        self.things.contains(entity)
    }
}

/// The values of things; there are none where nothing is known.
#[derive(Drop)]
pub(crate) struct Values {
    values: IndexMap<Entity, Vec<i32>>,
}

impl Values {
    pub(crate) fn new(alloc: Global) -> Values
        ensures { (e : Thing) → values_in result e ≡ no_values e }
    {
        Values {
            values: IndexMap::new(alloc),
        }
    }

    /// The values of a thing, in place of what was known of it.
    pub(crate) fn put(
        &mut self,
        alloc: Global,
        entity: &Entity,
        values: &[i32],
    ) -> Result<(), NoMemory>
        ensures { OnOk result ((e : Thing) → values_in self.new e
            ≡ with_values (entity_of entity.now) values.now (values_in self.old) e) }
    {
        let copy = entity.copy(alloc)?;
        let values = values.to_vec(alloc)?;
        self.values.insert(copy, values)?;
        Ok(())
    }

    /// The values of a thing.
    pub(crate) fn of(&self, entity: &Entity) -> &[i32]
        ensures { result.now ≡ values_in self.now (entity_of entity.now) }
    {
        match self.values.get(entity) {
            Some(values) => values.as_slice(),
            None => &[],
        }
    }
}
