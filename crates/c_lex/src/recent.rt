//! Names that were met not long ago.

ghost use Rattle.std.specs.Prelude.{◌≡◌, IfOk};

use pcc_base::{Name, NoMemory};
use std::alloc::Global;
use std::rc::Rc;

/// How many names are kept.
const PLACES: usize = 256;

/// Names that were met, one for each place that bytes may have: a name that is met again shares the bytes of the one
/// before it.
#[derive(Drop)]
pub struct Recent {
    places: Vec<Option<Name>>,
}

impl Recent {
    /// No name so far.
    pub fn new(alloc: Global) -> Result<Recent, NoMemory> {
        let mut places = Vec::with_capacity(alloc, PLACES)?;
        for _ in 0..PLACES {
            places.push(None)?;
        }
        Ok(Recent { places })
    }

    /// The name with these bytes.
    pub fn name_of(&mut self, alloc: Global, bytes: &[u8]) -> Result<Name, NoMemory>
        ensures { IfOk result (λ n. n ≡ bytes.now) }
    {
        let place = place_of(bytes);
        if let Some(Some(name)) = self.places.get(place)
            && name.as_bytes() == bytes
        {
            return name.copy();
        }
        let name = new_name(alloc, Vec::from_slice(alloc, bytes)?)?;
        if let Some(kept) = self.places.get_mut(place) {
            *kept = Some(name.copy()?);
        }
        Ok(name)
    }
}

/// The place that bytes have.
fn place_of(bytes: &[u8]) -> usize {
    let mut sum: u32 = 0;
    for byte in bytes {
        sum = sum.wrapping_mul(31).wrapping_add(u32::from(*byte));
    }
    sum as usize % PLACES
}

/// A name that shares its bytes with no other.
pub(crate) fn new_name(alloc: Global, bytes: Vec<u8>) -> Result<Name, NoMemory>
    ensures { IfOk result (λ n. n ≡ bytes.items) }
{
    let bytes = Rc::new(alloc, bytes)?;
    Ok(Name::new(bytes))
}
