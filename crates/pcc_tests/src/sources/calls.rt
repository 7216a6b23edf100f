//! What ops do with calls, with the outside and with turns.

use crate::sources::machine::{End, Machine, Value, fresh};
use crate::sources::numbers::low_byte;
use pcc_base::{NoMemory, Trap};

/// The most calls that are active at once.
const MOST_ACTIVE: usize = 4096;

impl Machine<'_> {
    /// The values that a call passes.
    fn values(&mut self, variables: &[u32]) -> Result<Vec<Value>, NoMemory> {
        let mut values = Vec::new(self.alloc);
        for variable in variables {
            values.push(self.value(*variable))?;
        }
        Ok(values)
    }

    /// The youngest call waits for one of a function.
    fn enter(
        &mut self,
        wanted: Option<u32>,
        function: u32,
        variables: &[u32],
    ) -> Result<(), NoMemory> {
        let words = self.values(variables)?;
        match self.codes.get(function as usize) {
            Some(code) => {
                let call = fresh(self.alloc, &mut self.arrays, code, wanted, words)?;
                let caller = std::mem::replace(&mut self.current, call);
                self.waiting.push(caller)?;
            }
            None => self.stop(End::Stuck),
        }
        Ok(())
    }

    /// A call of a function. One too many traps.
    pub fn call(&mut self, wanted: Option<u32>, function: u32, variables: &[u32]) {
        if MOST_ACTIVE <= self.waiting.len().saturating_add(1) {
            self.stop(End::Trapped(Trap::Check));
        } else if self.enter(wanted, function, variables).is_err() {
            self.stop(End::NoMemory);
        }
    }

    /// Back to the caller, if there is one. The arrays of the call end.
    fn leave(&mut self) -> bool {
        self.arrays.truncate(self.current.first_array);
        match self.waiting.pop() {
            Some(caller) => {
                self.current = caller;
                true
            }
            None => false,
        }
    }

    /// The end of a call with its result, for the caller that wants it. The status of the program is the low byte of
    /// what the first call returns.
    fn give(&mut self, number: i32) {
        let wanted = self.current.wanted;
        match (self.leave(), wanted) {
            (true, Some(to)) => self.set_number(to, number),
            (true, None) => {}
            (false, _) => self.stop(End::Ended(low_byte(number))),
        }
    }

    pub fn returns(&mut self, from: Option<u32>) {
        match from {
            Some(variable) => {
                let number = self.number(variable);
                self.give(number);
            }
            None if self.current.wanted.is_some() || !self.leave() => self.stop(End::Stuck),
            None => {}
        }
    }

    /// The argument word of that number.
    pub fn param(&mut self, to: u32, word: u32) {
        match self.current.words.get(word as usize) {
            Some(value) => {
                let value = *value;
                self.set(to, value);
            }
            None => self.stop(End::Stuck),
        }
    }

    pub fn putchar(&mut self, to: u32, from: u32) {
        let byte = low_byte(self.number(from));
        match self.written.push(byte) {
            Ok(()) => self.set_number(to, byte as i32),
            Err(_) => self.stop(End::NoMemory),
        }
    }

    pub fn getchar(&mut self, to: u32) {
        let number = match self.input {
            [byte, rest @ ..] => {
                self.input = rest;
                *byte as i32
            }
            [] => -1,
        };
        self.set_number(to, number);
    }

    pub fn exit(&mut self, status: u32) {
        let status = low_byte(self.number(status));
        self.stop(End::Ended(status));
    }

    pub fn turn(&mut self) {
        match self.turns.checked_sub(1) {
            Some(turns) => self.turns = turns,
            None => self.stop(End::TurnsSpent),
        }
    }
}
