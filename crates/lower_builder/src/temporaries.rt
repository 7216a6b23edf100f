//! The variables of a function.

ghost use Rattle.std.specs.Prelude.{◌≡◌, ◌+◌, ◌*◌, IfOk, slice_get};
ghost use Rattle.c_tree.specs.Evaluation.{type_at};
ghost use Rattle.lower_lines.specs.Variables.{local_spot, local_variables, own, temporary};
ghost use Rattle.lower_lines.specs.Variables.{ForArray, ForByte, ForNumber, ForOld, ForScratch};
ghost use Rattle.lower_builder.specs.Sites.{context_of};
ghost use Rattle.lower_builder.specs.Spots.{spot_of};

use crate::lines::plus;
use crate::site::Site;
use crate::spot::Spot;
use c_tree::ValueType;
use pcc_base::NoMemory;

/// The spot at a place of a list, if there are so many.
fn spot_at(spots: &[Spot], place: usize) -> Option<Spot>
    ensures { result ≡ slice_get spots.now place }
{
    spots.get(place).copied()
}

impl Site<'_> {
    /// The variables of a local.
    pub fn spot(&self, local: u32) -> Spot
        ensures { spot_of result ≡ local_spot (context_of self.now) local }
    {
        match spot_at(self.spots.as_slice(), local as usize) {
            Some(spot) => spot,
            None => Spot {
                array: self.first,
                number: self.first,
            },
        }
    }

    /// The type of a local.
    pub fn local_type(&self, local: u32) -> ValueType
        ensures { result ≡ type_at (context_of self.now).function local }
    {
        match self.function.locals.get(local as usize) {
            Some(local) => local.of,
            None => ValueType::Void,
        }
    }

    /// The temporary of a level at a place among its five.
    fn temporary(&self, level: u32, place: u32) -> Result<u32, NoMemory>
        ensures { IfOk result (λ v. v ≡ local_variables (context_of self.now).function + level * 5 + place) }
    {
        match level.checked_mul(5) {
            Some(above) => plus(plus(self.first, above)?, place),
            // No caller meets this: a level is no more than the height of a tree.
            None => Err(NoMemory),
        }
    }

    /// The temporary of a level for the array of a pointer.
    pub fn array(&self, level: u32) -> Result<u32, NoMemory>
        ensures { IfOk result (λ v. v ≡ temporary (context_of self.now) level ForArray) }
    {
        self.temporary(level, 0)
    }

    /// The temporary of a level for a number, or for the index of a pointer.
    pub fn number(&self, level: u32) -> Result<u32, NoMemory>
        ensures { IfOk result (λ v. v ≡ temporary (context_of self.now) level ForNumber) }
    {
        self.temporary(level, 1)
    }

    /// The temporary of a level for a value of a place before it is written.
    pub fn old(&self, level: u32) -> Result<u32, NoMemory>
        ensures { IfOk result (λ v. v ≡ temporary (context_of self.now) level ForOld) }
    {
        self.temporary(level, 2)
    }

    /// The temporary of a level for a dividend or a constant.
    pub fn scratch(&self, level: u32) -> Result<u32, NoMemory>
        ensures { IfOk result (λ v. v ≡ temporary (context_of self.now) level ForScratch) }
    {
        self.temporary(level, 3)
    }

    /// The temporary of a level for a byte.
    pub fn byte(&self, level: u32) -> Result<u32, NoMemory>
        ensures { IfOk result (λ v. v ≡ temporary (context_of self.now) level ForByte) }
    {
        self.temporary(level, 4)
    }

    /// The temporaries of a level that a value is put in.
    pub fn own(&self, level: u32) -> Result<Spot, NoMemory>
        ensures { IfOk result (λ spot. spot_of spot ≡ own (context_of self.now) level) }
    {
        Ok(Spot {
            array: self.array(level)?,
            number: self.number(level)?,
        })
    }
}
