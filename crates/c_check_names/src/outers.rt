//! What is declared outside functions.

ghost use Rattle.std.specs.Prelude.{◌≡◌, ◌∷◌, ◌++◌, [], map, not, slice_get, Some, OnOk};
ghost use Rattle.std.specs.List.{list_any};
ghost use Rattle.indexmap.specs.IndexMap.{get_by};
ghost use Rattle.c_typing.specs.Names as typing;
ghost use Rattle.c_typing.specs.Names.{clashes};
ghost use Rattle.c_typing.specs.Types.{same_type};
ghost use Rattle.c_check_names.specs.Outers.{is_entity, IsSummed};
ghost use Rattle.c_check_names.specs.Views.{declared_of, entity_of, outer_of};

use crate::entity::Entity;
use crate::meaning::Outer;
use crate::same::same_type;
use crate::sums::{Seen, is_against, with_one_more};
use indexmap::IndexMap;
use pcc_base::NoMemory;
use std::alloc::Global;
use std::marker::Model;

/// Whether a declaration differs in type from the first one of its thing, which stands at this place.
fn differs(list: &[Outer], first: usize, outer: &Outer) -> bool
    ensures { (f : typing.Outer) → slice_get (map outer_of list.now) first ≡ Some f
        → result ≡ not (same_type f.type (declared_of outer.now.declared)) }
{
    match list.get(first) {
        Some(other) => !same_type(&other.declared, &outer.declared),
        None => false,
    }
}

/// What is known of all declarations of one thing with one more of them.
fn summed(list: &[Outer], seen: &IndexMap<Entity, Seen>, outer: &Outer) -> Seen
    requires { IsSummed (map outer_of list.now) (entity_of outer.now.entity)
        (get_by (is_entity (entity_of outer.now.entity)) seen.now) }
    ensures { IsSummed (map outer_of list.now ++ outer_of outer.now ∷ []) (entity_of outer.now.entity)
        (Some result) }
{
    match seen.get(&outer.entity) {
        None => Seen {
            first: list.len(),
            mixed: false,
            whole: outer.whole,
        },
        Some(seen) => with_one_more(*seen, differs(list, seen.first, outer), outer.whole),
    }
}

/// Whether a declaration clashes with one of those of the same thing that are known.
fn clashes_with(list: &[Outer], seen: &IndexMap<Entity, Seen>, outer: &Outer) -> bool
    requires { IsSummed (map outer_of list.now) (entity_of outer.now.entity)
        (get_by (is_entity (entity_of outer.now.entity)) seen.now) }
    ensures { result ≡ list_any (clashes (outer_of outer.now)) (map outer_of list.now) }
{
    match seen.get(&outer.entity) {
        None => false,
        Some(seen) => is_against(*seen, differs(list, seen.first, outer), outer.whole),
    }
}

/// The declarations outside functions so far, in all files, seen with the last one first.
#[derive(Drop)]
pub(crate) struct Outers {
    list: Vec<Outer>,
    seen: IndexMap<Entity, Seen>,
}

impl Model for Outers {
    ghost use Rattle.std.specs.Prelude.{List, map, reverse};
    ghost use Rattle.c_typing.specs.Names as typing;

    ghost Value = { List typing.Outer };

    ghost use Rattle.c_check_names.specs.Views.{outer_of};
    ghost use Rattle.c_check_names.specs.Outers.{SumsUp};

    ghost view = { λ o. map outer_of (reverse o.list.items) };

    ghost invariant = { λ o. SumsUp (map outer_of o.list.items) o.seen.entries };
}

impl Outers {
    pub(crate) fn new(alloc: Global) -> Outers
        ensures { result ≡ [] }
    {
        Outers {
            list: Vec::new(alloc),
            seen: IndexMap::new(alloc),
        }
    }

    /// One more declaration.
    pub(crate) fn push(&mut self, alloc: Global, outer: Outer) -> Result<(), NoMemory>
        ensures { OnOk result (self.new ≡ outer_of outer ∷ self.old) }
    {
        let key = outer.entity.copy(alloc)?;
        let seen = summed(&self.list, &self.seen, &outer);
        let place = self.list.len();
        self.list.push(outer)?;
        match self.seen.insert(key, seen) {
            Ok(_) => Ok(()),
            Err(_) => {
                self.list.truncate(place);
                Err(NoMemory)
            }
        }
    }

    /// Whether a declaration differs in type from an earlier one of the same thing, or both define it wholly.
    pub(crate) fn clashes(&self, outer: &Outer) -> bool
        ensures { result ≡ list_any (clashes (outer_of outer.now)) self.now }
    {
        clashes_with(&self.list, &self.seen, outer)
    }
}
