//! What ops do with arrays and static objects.

use crate::sources::machine::{End, Machine, Value};
use crate::sources::numbers::{low_8, low_16};
use flow_graph::Bits;
use pcc_base::{DataObject, Trap};

fn bytes_of(bits: Bits) -> u8 {
    match bits {
        Bits::Eight => 1,
        Bits::Sixteen => 2,
        Bits::ThirtyTwo => 4,
    }
}

/// A number as an element of so many bits holds it.
fn stored(bits: Bits, number: i32) -> i32 {
    match bits {
        Bits::Eight => low_8(number),
        Bits::Sixteen => low_16(number),
        Bits::ThirtyTwo => number,
    }
}

/// The element at an index of an array, whose elements have so many bits. One outside the array traps.
fn element(array: &mut DataObject, bits: Bits, index: i32) -> Result<&mut i32, End> {
    if array.width != bytes_of(bits) {
        return Err(End::Stuck);
    }
    if index < 0 {
        return Err(End::Trapped(Trap::Check));
    }
    match array.elements.get_mut(index as usize) {
        Some(place) => Ok(place),
        None => Err(End::Trapped(Trap::Check)),
    }
}

/// The element at an index of an array. An access of no array traps.
fn accessed(
    arrays: &mut [DataObject],
    array: Value,
    bits: Bits,
    index: i32,
) -> Result<&mut i32, End> {
    match array {
        Value::Array(number) => match arrays.get_mut(number) {
            Some(array) => element(array, bits, index),
            None => Err(End::Stuck),
        },
        Value::Number(0) => Err(End::Trapped(Trap::Check)),
        Value::Number(_) => Err(End::Stuck),
    }
}

impl Machine<'_> {
    /// An element into a variable.
    fn get_from(&mut self, bits: Bits, to: u32, array: Value, index: i32) {
        match accessed(self.arrays.as_mut_slice(), array, bits, index) {
            Ok(place) => {
                let number = *place;
                self.set_number(to, number);
            }
            Err(end) => self.stop(end),
        }
    }

    /// A number into an element.
    fn put_into(&mut self, bits: Bits, array: Value, index: i32, from: u32) {
        let number = stored(bits, self.number(from));
        match accessed(self.arrays.as_mut_slice(), array, bits, index) {
            Ok(place) => *place = number,
            Err(end) => self.stop(end),
        }
    }

    pub fn load(&mut self, bits: Bits, to: u32, array: u32, index: u32) {
        let array = self.value(array);
        let index = self.number(index);
        self.get_from(bits, to, array, index);
    }

    pub fn store(&mut self, bits: Bits, array: u32, index: u32, from: u32) {
        let array = self.value(array);
        let index = self.number(index);
        self.put_into(bits, array, index, from);
    }

    /// Element 0 of a static object into a variable.
    pub fn get(&mut self, bits: Bits, to: u32, object: u32) {
        self.get_from(bits, to, Value::Array(object as usize), 0);
    }

    /// A number into element 0 of a static object.
    pub fn put(&mut self, bits: Bits, object: u32, from: u32) {
        self.put_into(bits, Value::Array(object as usize), 0, from);
    }

    /// The number of a frame array of the youngest call.
    pub fn frame_array(&self, array: u32) -> usize {
        self.current.first_array.saturating_add(array as usize)
    }

    /// A frame array of the youngest call becomes zero.
    pub fn clear(&mut self, array: u32) {
        let number = self.frame_array(array);
        match self.arrays.get_mut(number) {
            Some(object) => object.elements.as_mut_slice().fill(0),
            None => self.stop(End::Stuck),
        }
    }
}
