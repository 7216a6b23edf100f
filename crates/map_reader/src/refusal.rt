//! Why no map is read of a text.

ghost use Rattle.std.specs.Prelude.{◌≡◌};
ghost use Rattle.map_reader.specs.declared.refusal.MapRefusal.TheVariants.{NoMemory as OutOfMemory};

use pcc_base::NoMemory;

/// Why no map is read of a text.
#[derive(Clone, Copy, Debug, PartialEq, Eq)]
pub enum MapRefusal {
    /// The text is that of no map.
    NotMap,
    NoMemory,
}

impl From<NoMemory> for MapRefusal {
    ghost from_gives = { λ _ refusal. refusal ≡ OutOfMemory };

    fn from(_e: NoMemory) -> MapRefusal {
        MapRefusal::NoMemory
    }
}
