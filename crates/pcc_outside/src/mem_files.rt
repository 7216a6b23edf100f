ghost use Rattle.std.specs.Prelude.{◌≡◌, ◌≢◌, ◌≤◌, ◌↔◌, ℕ, List, None, Some, IfOk, IsErrOf, OnErr, OnOk, option_map};
ghost use Rattle.std.specs.Prelude.{vec_len};
ghost use Rattle.std.specs.BTreeMap.{get_by_text};
ghost use Rattle.pcc_outside.specs.Calls.{FailsNext, ReadRaises, WriteRaises, no_calls, one_more};
ghost use Rattle.pcc_outside.specs.Files.{CountsRead, CountsWrite, ReadTold, WriteTold};
ghost use Rattle.pcc_outside.specs.Held.{held, store_calls, store_counts};
ghost use Rattle.pcc_outside.specs.Memory.{no_answers};

use crate::calls::{CallLog, raise};
use crate::file_store::{FileStore, ReadRefusal};
use crate::sink::WriteRefusal;
use pcc_base::NoMemory;
use std::alloc::Global;
use std::collections::BTreeMap;

/// Files in memory, of which chosen calls fail.
#[derive(Drop)]
pub struct MemFiles {
    files: BTreeMap<String, Vec<u8>>,
    alloc: Global,
    log: CallLog,
    read_faults: u64,
    write_faults: u64,
    missing: u64,
    too_long: u64,
}

/// Puts the bytes under the name. After `NoMemory` nothing changed.
fn put(
    files: &mut BTreeMap<String, Vec<u8>>,
    alloc: Global,
    name: &str,
    bytes: &[u8],
) -> Result<(), NoMemory>
    ensures placed { OnOk result (option_map (λ v. v.items) (get_by_text files.new name.now) ≡ Some bytes.now) }
    ensures others { (other : List ℕ) → other ≢ name.now → get_by_text files.new other ≡ get_by_text files.old other }
    ensures unchanged { OnErr result ((other : List ℕ) → get_by_text files.new other ≡ get_by_text files.old other) }
{
    let key = String::from_str(alloc, name)?;
    let held = Vec::from_slice(alloc, bytes)?;
    match files.insert(key, held) {
        Ok(_) => Ok(()),
        Err(_) => Err(NoMemory),
    }
}

impl MemFiles {
    /// A store that holds no name, whose calls with these numbers fail. Calls count from 1.
    pub fn new(alloc: Global, failing: Vec<u64>) -> MemFiles
        ensures empty { (name : List ℕ) → held result name ≡ None }
        ensures calls { store_calls result ≡ no_calls failing.items }
        ensures counts { store_counts result ≡ no_answers }
    {
        MemFiles {
            files: BTreeMap::new(alloc),
            alloc,
            log: CallLog::new(failing),
            read_faults: 0,
            write_faults: 0,
            missing: 0,
            too_long: 0,
        }
    }

    /// Puts the bytes under the name. After `NoMemory` nothing changed. This is not counted as a call.
    pub fn place(&mut self, name: &str, bytes: &[u8]) -> Result<(), NoMemory>
        ensures placed { OnOk result (held self.new name.now ≡ Some bytes.now) }
        ensures others { (other : List ℕ) → other ≢ name.now → held self.new other ≡ held self.old other }
        ensures unchanged { OnErr result ((other : List ℕ) → held self.new other ≡ held self.old other) }
        ensures calls { store_calls self.new ≡ store_calls self.old }
        ensures counts { store_counts self.new ≡ store_counts self.old }
    {
        put(&mut self.files, self.alloc, name, bytes)
    }

    /// The bytes under the name, or None exactly where it is absent. This is not counted as a call.
    pub fn content(&self, name: &str) -> Option<&[u8]>
        ensures { option_map (λ b. b.now) result ≡ held self.now name.now }
    {
        match self.files.get(name) {
            Some(bytes) => Some(bytes.as_slice()),
            None => None,
        }
    }
}

impl FileStore for MemFiles {
    ghost use Rattle.std.specs.Prelude.{⊤};

    ghost counts = { store_counts };

    ghost tells = { λ _. ⊤ };

    ghost content = { held };

    /// The bytes under the name. `Failed` comes exactly where the call's number is one of those that fail.
    fn read(&mut self, alloc: Global, name: &str, most: usize) -> Result<Vec<u8>, ReadRefusal>
        ensures counted { CountsRead (store_counts self.old) (store_counts self.new) result }
        ensures size { IfOk result (λ bytes. vec_len bytes ≤ most) }
        ensures kept { (other : List ℕ) → held self.new other ≡ held self.old other }
        ensures told { ReadTold (held self.old name.now) most result }
        ensures fails { IsErrOf result ReadRefusal.Failed ↔ FailsNext (store_calls self.old) }
        ensures calls { store_calls self.new ≡ one_more (store_calls self.old) }
        ensures raises { ReadRaises (store_counts self.old) (store_counts self.new) result }
    {
        if self.log.next_fails() {
            self.read_faults = raise(self.read_faults);
            return Err(ReadRefusal::Failed);
        }
        let Some(bytes) = self.files.get(name) else {
            self.missing = raise(self.missing);
            return Err(ReadRefusal::Missing);
        };
        if bytes.len() > most {
            self.too_long = raise(self.too_long);
            return Err(ReadRefusal::TooLong);
        }
        match Vec::from_slice(alloc, bytes) {
            Ok(copy) => Ok(copy),
            Err(_) => Err(ReadRefusal::NoMemory),
        }
    }

    /// Puts the bytes under the name. `Failed` comes exactly where the call's number is one of those
    /// that fail, and then nothing changed.
    fn write(&mut self, name: &str, bytes: &[u8]) -> Result<(), WriteRefusal>
        ensures counted { CountsWrite (store_counts self.old) (store_counts self.new) result }
        ensures others { (other : List ℕ) → other ≢ name.now → held self.new other ≡ held self.old other }
        ensures told { WriteTold (held self.old name.now) (held self.new name.now) bytes.now result }
        ensures unchanged { OnErr result ((other : List ℕ) → held self.new other ≡ held self.old other) }
        ensures fails { IsErrOf result WriteRefusal.Failed ↔ FailsNext (store_calls self.old) }
        ensures calls { store_calls self.new ≡ one_more (store_calls self.old) }
        ensures raises { WriteRaises (store_counts self.old) (store_counts self.new) result }
    {
        if self.log.next_fails() {
            self.write_faults = raise(self.write_faults);
            return Err(WriteRefusal::Failed);
        }
        match put(&mut self.files, self.alloc, name, bytes) {
            Ok(()) => Ok(()),
            Err(NoMemory) => Err(WriteRefusal::NoMemory),
        }
    }
}
