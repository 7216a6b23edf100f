//! What is known at a place of the text.

ghost use Rattle.std.specs.Prelude.{
  ◌≡◌,
  ◌-◌,
  ◌++◌,
  [],
  List,
  drop,
  length,
  map,
  option_map,
  take,
  IfOk,
  OnOk,
};
ghost use Rattle.c_tree.specs.Erased.{array_of, local_of};
ghost use Rattle.c_typing.specs.Names.{
  bound,
  entered,
  first_scope,
  is_declared_here,
  is_redeclared,
  left,
  linked,
  meaning_of,
  next_file,
  numbered,
  object_number,
  function_number,
  with_array,
  with_local,
  Binding,
  Scope,
};
ghost use Rattle.c_typing.specs.Files.{with_outer};
ghost use Rattle.c_check_names.specs.Views as views;

use crate::entity::Entity;
use crate::library::{bind_functions, declare_functions};
use crate::linkage::{as_before, entity_meant, external, internal, is_function, is_other};
use crate::meaning::{Declared, Meaning, Outer, Storage};
use crate::names::Names;
use crate::numbers::{Numbers, number};
use crate::outers::Outers;
use c_tree::{IntegerType, Local, LocalArray, ValueType};
use pcc_base::{Name, NoMemory};
use std::alloc::Global;
use std::marker::Model;

/// Where a scope was opened: how many names were seen, and how many scopes were around the place.
#[derive(Clone, Copy)]
pub struct Mark {
    pub names: usize,
    pub depth: u32,
}

/// What is known at a place of the text.
#[derive(Drop)]
pub struct Scopes {
    numbers: Numbers,
    /// The position of the file, and the declarations outside functions in it and in the files before it.
    file: u32,
    outers: Outers,
    /// The names that are seen, and how many scopes are around the place.
    names: Names,
    depth: u32,
    /// The locals and arrays of the function so far.
    locals: Vec<Local>,
    arrays: Vec<LocalArray>,
    /// The number of the next statement or declared item.
    next: u32,
}

impl Model for Scopes {
    ghost use Rattle.std.specs.Prelude.{map};
    ghost use Rattle.c_tree.specs.Erased.{array_of, local_of};
    ghost use Rattle.c_typing.specs.Names.{Scope};

    ghost Value = { Scope };

    ghost view = { λ s. record {
      numbers = s.numbers;
      file = s.file;
      outer = s.outers;
      names = s.names;
      depth = s.depth;
      locals = map local_of s.locals.items;
      arrays = map array_of s.arrays.items;
      next = s.next;
    } };
}

impl Scopes {
    /// Where nothing is known but the numbers of objects and functions.
    fn empty(alloc: Global, numbers: Numbers) -> Scopes
        ensures { result ≡ record {
          numbers = numbers;
          file = 0;
          outer = [];
          names = [];
          depth = 0;
          locals = [];
          arrays = [];
          next = 0;
        } }
    {
        Scopes {
            numbers,
            file: 0,
            outers: Outers::new(alloc),
            names: Names::new(alloc),
            depth: 0,
            locals: Vec::new(alloc),
            arrays: Vec::new(alloc),
            next: 0,
        }
    }

    /// Declares the library before the first file.
    fn declare_library(&mut self, alloc: Global) -> Result<(), NoMemory>
        requires names { self.old.names ≡ [] }
        requires outer { self.old.outer ≡ [] }
        ensures { OnOk result (self.new ≡ record self.old {
          outer = (first_scope self.old.numbers).outer;
          names = (first_scope self.old.numbers).names;
        }) }
    {
        declare_functions(alloc, &mut self.outers)?;
        bind_functions(alloc, &mut self.names)
    }

    /// Before the first file, where objects and functions have these numbers.
    pub fn new(alloc: Global, numbers: Numbers) -> Result<Scopes, NoMemory>
        ensures { IfOk result (λ s. s ≡ first_scope numbers) }
    {
        let mut scopes = Scopes::empty(alloc, numbers);
        scopes.declare_library(alloc)?;
        Ok(scopes)
    }

    /// Before the next file, which sees nothing of this one but what is shared.
    pub fn next_file(&mut self, alloc: Global) -> Result<(), NoMemory>
        ensures { OnOk result (self.new ≡ next_file self.old) }
    {
        let file = number(self.file as usize + 1)?;
        self.names.forget_until(0);
        bind_functions(alloc, &mut self.names)?;
        self.file = file;
        Ok(())
    }

    // ---- scopes (C99 6.2.1)

    /// Opens a scope.
    pub fn enter(&mut self) -> Result<Mark, NoMemory>
        ensures { IfOk result (λ m. (self.new ≡ entered self.old)
            × (m.names ≡ length self.old.names) × (m.depth ≡ self.old.depth)) }
    {
        let depth = number(self.depth as usize + 1)?;
        let mark = Mark {
            names: self.names.len(),
            depth: self.depth,
        };
        self.depth = depth;
        Ok(mark)
    }

    /// Closes the scopes that were opened since a mark: their names are seen no more.
    pub fn leave(&mut self, mark: Mark)
        ensures { (outside : Scope) (more : List Binding) → self.old.names ≡ more ++ outside.names
            → mark.names ≡ length outside.names → mark.depth ≡ outside.depth
            → self.new ≡ left outside self.old }
    {
        self.names.forget_until(mark.names);
        self.depth = mark.depth;
    }

    /// What a name means.
    pub fn meaning(&self, name: &Name) -> Option<&Meaning>
        ensures { option_map (λ m. views.meaning_of m.now) result ≡ meaning_of self.now.names name.now }
    {
        match self.names.find(name.as_bytes()) {
            Some(entry) => Some(&entry.meaning),
            None => None,
        }
    }

    /// Whether a name is declared in this very scope.
    pub fn is_declared_here(&self, name: &Name) -> bool
        ensures { result ≡ is_declared_here self.now name.now }
    {
        match self.names.find(name.as_bytes()) {
            Some(entry) => entry.depth == self.depth,
            None => false,
        }
    }

    /// Declares a name.
    pub fn bind(&mut self, alloc: Global, name: &Name, meaning: Meaning) -> Result<(), NoMemory>
        ensures { OnOk result (self.new ≡ bound name.now (views.meaning_of meaning) self.old) }
    {
        self.names.bind(alloc, name.as_bytes(), self.depth, meaning)
    }

    /// Declares a local that is no array, also a parameter. Its number is answered.
    pub fn declare_local(
        &mut self,
        alloc: Global,
        name: &Name,
        of: ValueType,
    ) -> Result<u32, NoMemory>
        ensures { IfOk result (λ n. (n ≡ length self.old.locals)
            × (self.new ≡ with_local name.now of self.old)) }
    {
        let number = number(self.locals.len())?;
        let copy = name.copy()?;
        self.locals.push(Local { name: copy, of })?;
        self.bind(alloc, name, Meaning::Local(number, of))?;
        Ok(number)
    }

    /// Declares an array of the function. Its number is answered.
    pub fn declare_array(
        &mut self,
        alloc: Global,
        name: &Name,
        element: IntegerType,
        count: u32,
    ) -> Result<u32, NoMemory>
        ensures { IfOk result (λ n. (n ≡ length self.old.arrays)
            × (self.new ≡ with_array name.now element count self.old)) }
    {
        let number = number(self.arrays.len())?;
        let copy = name.copy()?;
        self.arrays.push(LocalArray {
            name: copy,
            element,
            count,
        })?;
        self.bind(alloc, name, Meaning::LocalArray(number, element))?;
        Ok(number)
    }

    /// Takes the number of a statement or declared item.
    pub fn take_number(&mut self) -> Result<u32, NoMemory>
        ensures { IfOk result (λ n. (n ≡ self.old.next) × (self.new ≡ numbered self.old)) }
    {
        let taken = self.next;
        self.next = number(taken as usize + 1)?;
        Ok(taken)
    }

    /// How many locals that are no arrays the function has so far.
    pub fn local_count(&self) -> usize
        ensures { result ≡ length self.now.locals }
    {
        self.locals.len()
    }

    /// Forgets locals until so many are left. Their names have to be out of scope.
    pub fn forget_locals(&mut self, count: usize)
        ensures { self.new ≡ record self.old { locals = take count self.old.locals } }
    {
        self.locals.truncate(count);
    }

    /// The locals of the function so far that are no arrays.
    pub fn locals(&self) -> &[Local]
        ensures { map local_of result.now ≡ self.now.locals }
    {
        self.locals.as_slice()
    }

    /// The arrays of the function so far.
    pub fn arrays(&self) -> &[LocalArray]
        ensures { map array_of result.now ≡ self.now.arrays }
    {
        self.arrays.as_slice()
    }

    /// Takes the locals and arrays of the function so far away: none are left.
    pub fn take_locals(&mut self, alloc: Global) -> (Vec<Local>, Vec<LocalArray>)
        ensures locals { map local_of result.0.items ≡ self.old.locals }
        ensures arrays { map array_of result.1.items ≡ self.old.arrays }
        ensures left { self.new ≡ record self.old { locals = []; arrays = [] } }
    {
        let locals = std::mem::replace(&mut self.locals, Vec::new(alloc));
        let arrays = std::mem::replace(&mut self.arrays, Vec::new(alloc));
        (locals, arrays)
    }

    // ---- outside functions (C99 6.2.2)

    /// The number of an object.
    pub fn object_number(&self, entity: &Entity) -> Result<u32, NoMemory>
        ensures { IfOk result (λ n. n ≡ object_number self.now (views.entity_of entity.now)) }
    {
        self.numbers.object(entity)
    }

    /// The number of a function.
    pub fn function_number(&self, entity: &Entity) -> Result<u32, NoMemory>
        ensures { IfOk result (λ n. n ≡ function_number self.now (views.entity_of entity.now)) }
    {
        self.numbers.function(entity)
    }

    /// What a declaration outside functions declares (C99 6.2.2p3 to p5).
    pub fn linked(
        &self,
        alloc: Global,
        storage: Storage,
        declared: &Declared,
        name: &Name,
    ) -> Result<Entity, NoMemory>
        ensures { IfOk result (λ e. views.entity_of e ≡ linked self.now (views.storage_of storage)
            (views.declared_of declared.now) name.now) }
    {
        match storage {
            Storage::Static => internal(alloc, self.file, name.as_bytes()),
            Storage::Extern => as_before(alloc, name.as_bytes(), self.meaning(name)),
            Storage::Unsaid => {
                if is_function(declared) {
                    return as_before(alloc, name.as_bytes(), self.meaning(name));
                }
                external(alloc, name.as_bytes())
            }
            Storage::Auto | Storage::Register => external(alloc, name.as_bytes()),
        }
    }

    /// Whether a declaration outside functions goes against an earlier one: in this file with another linkage (C99
    /// 6.2.2p7), or of the same thing in any file (C99 6.2.7p2 and 6.9p5).
    pub fn is_redeclared(&self, name: &Name, outer: &Outer) -> bool
        ensures { result ≡ is_redeclared self.now name.now (views.outer_of outer.now) }
    {
        is_other(&outer.entity, entity_meant(self.meaning(name))) || self.outers.clashes(outer)
    }

    /// One more declaration outside functions.
    pub fn add_outer(&mut self, alloc: Global, outer: Outer) -> Result<(), NoMemory>
        ensures { OnOk result (self.new ≡ with_outer (views.outer_of outer) self.old) }
    {
        self.outers.push(alloc, outer)
    }
}
