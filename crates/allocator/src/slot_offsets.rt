//! Where slots of spilled variables stand.

ghost use Rattle.std.specs.Prelude.{◌≡◌, ◌<◌};
ghost use Rattle.allocator.specs.Slots as slots;

/// The offset from EBP of a slot by its number, from 0: the first is right below the four words that a frame begins
/// with.
pub fn offset_of(number: u32) -> i32
    requires { number < 536870907 }
    ensures { result ≡ slots.offset_of number }
{
    -(20 + 4 * number as i32)
}
