//! Numbers that are drawn, one after the other, and numbers in texts.

ghost use Rattle.std.specs.Prelude.{◌≡◌, ◌<◌, ◌++◌, OnOk, decimal};
ghost use Rattle.pcc_gen.specs.Generated.{draw, next};

use itoa::Buffer;
use pcc_base::NoMemory;

/// What the next draws are taken from: a linear congruential generator.
#[derive(Drop)]
pub(crate) struct Draws {
    pub(crate) x: u32,
}

impl Draws {
    /// Draws a number below `k`.
    pub(crate) fn below(&mut self, k: u32) -> u32
        requires { 0 < k }
        ensures drawn { result ≡ draw k self.old.x }
        ensures next { self.new.x ≡ next self.old.x }
        ensures below { result < k }
    {
        self.x = self.x.wrapping_mul(1_103_515_245).wrapping_add(12_345);
        self.x / 65_536 % 32_768 % k
    }
}

/// Puts a number at the end, in decimal.
pub(crate) fn push_number(out: &mut Vec<u8>, number: u32) -> Result<(), NoMemory>
    ensures { OnOk result (out.new.items ≡ out.old.items ++ decimal number) }
{
    let mut buffer = Buffer::new();
    out.extend_from_slice(buffer.format(number).as_bytes())?;
    Ok(())
}
