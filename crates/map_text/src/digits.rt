//! Numbers and addresses in texts.

ghost use Rattle.std.specs.Prelude.{◌≡◌, ◌++◌, ◌<◌, OnOk, decimal};
ghost use Rattle.map_text.specs.Words.{address_text, hexadecimal_digit};

use itoa::Buffer;
use pcc_base::NoMemory;

/// Puts a number at the end, in decimal. The only refusal is want of memory.
pub fn push_number(out: &mut Vec<u8>, number: u64) -> Result<(), NoMemory>
    ensures { OnOk result (out.new.items ≡ out.old.items ++ decimal number) }
{
    let mut buffer = Buffer::new();
    out.extend_from_slice(buffer.format(number).as_bytes())?;
    Ok(())
}

/// A hexadecimal digit, of lower case.
fn digit(value: u32) -> u8
    requires { value < 16 }
    ensures { result ≡ hexadecimal_digit value }
{
    if value < 10 {
        48 + value as u8
    } else {
        87 + value as u8
    }
}

/// Puts an address at the end: eight hexadecimal digits, the highest first. The only refusal is want of
/// memory.
pub fn push_address(out: &mut Vec<u8>, address: u32) -> Result<(), NoMemory>
    ensures { OnOk result (out.new.items ≡ out.old.items ++ address_text address) }
{
    for place in 0..8u32 {
        out.push(digit((address >> (4 * (7 - place))) % 16))?;
    }
    Ok(())
}
