//! Numbers and addresses, as far as a word is one.

ghost use Rattle.std.specs.Prelude.{◌≡◌, ◌≤◌, option_map};
ghost use Rattle.map_text.specs.Entries as entries;
ghost use Rattle.map_text.specs.Fields.{
  address_in,
  below_in,
  bytes_in,
  if_any_in,
  number_in,
  signed_in,
  unsigned_in,
};

use std::str;

/// The number of 32 bits that a word writes to a base.
#[tactic(auto, using(crate::proofs::Parsed::unsigned_ok, crate::proofs::Parsed::unsigned_none, crate::proofs::Parsed::unsigned_text))]
fn unsigned(word: &[u8], radix: u32) -> Option<u32>
    requires least { 2 ≤ radix }
    requires most { radix ≤ 36 }
    ensures { result ≡ unsigned_in radix word.now }
{
    match str::from_utf8(word) {
        Ok(text) => match u32::from_str_radix(text, radix) {
            Ok(number) => Some(number),
            Err(_) => None,
        },
        Err(_) => None,
    }
}

/// The number of 32 bits that a word writes in decimal.
pub(crate) fn number(word: &[u8]) -> Option<u32>
    ensures { result ≡ number_in word.now }
{
    unsigned(word, 10)
}

/// The address that a word writes in hexadecimal.
pub(crate) fn address(word: &[u8]) -> Option<u32>
    ensures { result ≡ address_in word.now }
{
    unsigned(word, 16)
}

/// The signed number of 32 bits that a word writes in decimal.
#[tactic(auto, using(crate::proofs::Parsed::signed_ok, crate::proofs::Parsed::signed_none, crate::proofs::Parsed::signed_text))]
pub(crate) fn signed(word: &[u8]) -> Option<i32>
    ensures { result ≡ signed_in word.now }
{
    match str::from_utf8(word) {
        Ok(text) => match i32::from_str_radix(text, 10) {
            Ok(number) => Some(number),
            Err(_) => None,
        },
        Err(_) => None,
    }
}

/// The negative number of 32 bits that a word writes in decimal.
pub(crate) fn negative(word: &[u8]) -> Option<i32>
    ensures { option_map entries.below result ≡ below_in word.now }
{
    let number = signed(word)?;
    if number < 0 { Some(number) } else { None }
}

/// A variable, or `-` where there is none.
#[tactic(auto, unfolding(map_text::specs::Fields::if_any_in))]
pub(crate) fn if_any(word: &[u8]) -> Option<Option<u32>>
    ensures { result ≡ if_any_in word.now }
{
    if word == b"-".as_slice() {
        return Some(None);
    }
    let variable = number(word)?;
    Some(Some(variable))
}

/// The bytes of an element.
#[tactic(auto, unfolding(map_text::specs::Fields::bytes_in))]
pub(crate) fn bytes(word: &[u8]) -> Option<u8>
    ensures { result ≡ bytes_in word.now }
{
    if word == b"1".as_slice() {
        return Some(1);
    }
    if word == b"2".as_slice() {
        return Some(2);
    }
    if word == b"4".as_slice() {
        return Some(4);
    }
    None
}
