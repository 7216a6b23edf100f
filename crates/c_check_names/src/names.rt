//! The names that are seen, and how they are seen no more.

ghost use Rattle.std.specs.Prelude.{◌≡◌, ◌-◌, [], ◌∷◌, ◌++◌, drop, length, nat_eq, option_map};
ghost use Rattle.std.specs.Prelude.{IfNone, IfOk, IfSome, IsSome, OnOk};
ghost use Rattle.std.specs.Cmp.Lexicographic.{pointwise};
ghost use Rattle.std.specs.Map.{KeepsOthers};
ghost use Rattle.indexmap.specs.IndexMap.{get_by};
ghost use Rattle.c_check_names.specs.declared.names.Entry.{Entry};
ghost use Rattle.c_typing.specs.Names.{binding_of};
ghost use Rattle.c_check_names.specs.Bindings.{of_binding, of_entry};
ghost use Rattle.c_check_names.specs.Views.{meaning_of};

use crate::meaning::Meaning;
use indexmap::IndexMap;
use pcc_base::NoMemory;
use std::alloc::Global;
use std::marker::Model;

/// A name that is declared, how many scopes are around its own, and the place of the binding that it hides.
#[derive(Drop)]
pub struct Entry {
    name: Vec<u8>,
    pub depth: u32,
    pub meaning: Meaning,
    hidden: Option<usize>,
}

/// The names that are seen, seen as their bindings, the innermost first.
#[derive(Drop)]
pub struct Names {
    /// In the order of their declarations.
    entries: Vec<Entry>,
    /// Where the innermost binding of each name stands among them.
    places: IndexMap<Vec<u8>, usize>,
}

impl Model for Names {
    ghost use Rattle.std.specs.Prelude.{◌≡◌, List, ℕ, reverse};
    ghost use Rattle.std.specs.Cmp.Lexicographic.{pointwise};
    ghost use Rattle.std.specs.Prelude.{nat_eq};
    ghost use Rattle.indexmap.specs.IndexMap.{get_by};
    ghost use Rattle.c_typing.specs.Names.{Binding};

    ghost Value = { List Binding };

    ghost use Rattle.c_check_names.specs.Bindings.{innermost_first, place_of, AreChained};

    ghost view = { λ n. innermost_first n.entries.items };

    ghost invariant = { λ n. AreChained (reverse n.entries.items)
        × ((name : List ℕ) → get_by (λ k. pointwise nat_eq name k.items) n.places
        ≡ place_of (reverse n.entries.items) name) };
}

/// Two copies of a name, for its entry and for the table of places.
fn two_copies(alloc: Global, name: &[u8]) -> Result<(Vec<u8>, Vec<u8>), NoMemory>
    ensures { IfOk result (λ p. (p.0.items ≡ name.now) × (p.1.items ≡ name.now)) }
{
    let first = name.to_vec(alloc)?;
    let second = name.to_vec(alloc)?;
    Ok((first, second))
}

/// Takes the last binding away: its name, and the place of the binding that it hid.
fn take_last(entries: &mut Vec<Entry>) -> Option<(Vec<u8>, Option<usize>)>
    ensures some { IfSome result (λ p. (e : Entry) × (entries.old.items ≡ entries.new.items ++ e ∷ [])
        × (e.name ≡ p.0) × (e.hidden ≡ p.1)) }
    ensures none { IfNone result ((entries.old.items ≡ []) × (entries.new.items ≡ [])) }
{
    let Some(entry) = entries.pop() else {
        return None;
    };
    let Entry { name, hidden, .. } = entry;
    Some((name, hidden))
}

/// Makes the innermost binding of a name the one that was hidden.
fn put_back(places: &mut IndexMap<Vec<u8>, usize>, name: Vec<u8>, hidden: Option<usize>)
    requires { IfSome hidden (λ _. IsSome (get_by (λ k. pointwise nat_eq name.items k.items) places.old)) }
    ensures at { get_by (λ k. pointwise nat_eq name.items k.items) places.new ≡ hidden }
    ensures others { KeepsOthers (λ x y. pointwise nat_eq x.items y.items) (λ k. pointwise nat_eq name.items k.items)
        places.old.entries places.new.entries }
{
    match hidden {
        Some(place) => {
            places.insert(name, place).unwrap();
        }
        None => {
            places.swap_remove(name.as_slice());
        }
    }
}

impl Names {
    /// No name is seen.
    pub fn new(alloc: Global) -> Names
        ensures { result ≡ [] }
    {
        Names {
            entries: Vec::new(alloc),
            places: IndexMap::new(alloc),
        }
    }

    /// How many bindings are seen.
    pub fn len(&self) -> usize
        ensures { result ≡ length self.now }
    {
        self.entries.len()
    }

    /// The innermost binding of a name.
    pub fn find(&self, name: &[u8]) -> Option<&Entry>
        ensures { option_map (λ e. of_entry e.now) result
            ≡ option_map of_binding (binding_of self.now name.now) }
    {
        match self.places.get(name) {
            Some(place) => Some(&self.entries[*place]),
            None => None,
        }
    }

    /// Binds a name, which hides what it meant before.
    pub fn bind(
        &mut self,
        alloc: Global,
        name: &[u8],
        depth: u32,
        meaning: Meaning,
    ) -> Result<(), NoMemory>
        ensures { OnOk result (self.new
            ≡ record { name = name.now; depth = depth; meaning = meaning_of meaning } ∷ self.old) }
    {
        let (own, key) = two_copies(alloc, name)?;
        let hidden = self.places.get(name).copied();
        let place = self.entries.len();
        self.entries.push(Entry {
            name: own,
            depth,
            meaning,
            hidden,
        })?;
        match self.places.insert(key, place) {
            Ok(_) => Ok(()),
            Err(_) => {
                self.entries.truncate(place);
                Err(NoMemory)
            }
        }
    }

    /// Forgets the innermost binding of all.
    fn forget_one(&mut self)
        ensures { self.new ≡ drop 1 self.old }
    {
        if let Some((name, hidden)) = take_last(&mut self.entries) {
            put_back(&mut self.places, name, hidden);
        }
    }

    /// Forgets bindings until so many are left.
    pub(crate) fn forget_until(&mut self, count: usize)
        ensures { self.new ≡ drop (length self.old - count) self.old }
    {
        'names: while self.len() > count {
            self.forget_one();
        }
    }
}
