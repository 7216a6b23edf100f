//! Texts cut at a byte: a text into lines, and a line into words.

ghost use Rattle.std.specs.Prelude.{ℕ, ◌≡◌, ◌<◌, ◌∷◌, [], ◌==◌, IfSome, List, OnOk, length, option_map};
ghost use Rattle.std.specs.List.{slice_split};
ghost use Rattle.std.specs.Option.{option_map_or};
ghost use Rattle.map_text.specs.Fields.{cut_at};
ghost use Rattle.map_text.specs.Reading as reading;
ghost use Rattle.map_reader.specs.Views.{texts};

use pcc_base::NoMemory;

/// What stands before the first such byte, and what stands behind it.
pub(crate) fn cut_at(word: &[u8], byte: u8) -> Option<(&[u8], &[u8])>
    ensures parts { option_map (λ p. (p.0.now, p.1.now)) result ≡ cut_at byte word.now }
    ensures split { slice_split (λ b. b == byte) word.now
        ≡ option_map_or (λ p. p.0.now ∷ slice_split (λ b. b == byte) p.1.now) result (word.now ∷ []) }
    ensures shorter { IfSome result (λ p. length p.1.now < length word.now) }
{
    for (at, here) in word.iter().enumerate() {
        if *here == byte {
            return Some((&word[..at], &word[at + 1..]));
        }
    }
    None
}

/// The first word, and those behind it.
#[tactic(auto, using(crate::proofs::Cuts::no_words))]
pub(crate) fn next<'a, 'b>(words: &'b [&'a [u8]]) -> Option<(&'a [u8], &'b [&'a [u8]])>
    ensures { texts words.now ≡ option_map_or (λ p. p.0.now ∷ texts p.1.now) result [] }
{
    match words.split_first() {
        Some((first, others)) => Some((*first, others)),
        None => None,
    }
}

/// The first byte, and those behind it.
#[tactic(auto, using(crate::proofs::Cuts::no_bytes))]
pub(crate) fn next_byte(bytes: &[u8]) -> Option<(u8, &[u8])>
    ensures { bytes.now ≡ option_map_or (λ p. p.0 ∷ p.1.now) result [] }
{
    match bytes.split_first() {
        Some((first, others)) => Some((*first, others)),
        None => None,
    }
}

/// The words of a line, in place of those that were there. The only refusal is want of memory.
#[tactic(auto, using(crate::proofs::Cuts::words_next, crate::proofs::Cuts::words_last))]
pub fn words_of<'a>(words: &mut Vec<&'a [u8]>, line: &'a [u8]) -> Result<(), NoMemory>
    ensures { OnOk result (texts words.new.items ≡ reading.words_of line.now) }
{
    words.clear();
    let mut rest = line;
    'words: while let Some((word, others)) = cut_at(rest, b' ') {
        words.push(word)?;
        rest = others;
    }
    words.push(rest)?;
    Ok(())
}
