//! The sources, read in their order.

ghost use Rattle.std.specs.Prelude.{
  ◌≡◌,
  ◌+◌,
  ◌<◌,
  ◌≤◌,
  ◌^◌,
  ◌++◌,
  ◌∷◌,
  [],
  Err,
  Some,
  length,
  map,
  IfOk,
  OnOk,
  MatchResult,
};
ghost use Rattle.std.specs.List.{AllByRecursion};
ghost use Rattle.pcc_outside.specs.Files.{CountsRead};
ghost use Rattle.pcc_driver.specs.Outside.{SameFiles};
ghost use Rattle.pcc_driver.specs.Sources.{AreRead, IsUnreadable, StopsAt, file_limit};

use pcc_base::NoMemory;
use pcc_outside::{FileStore, ReadRefusal};
use std::alloc::Global;

/// The most bytes of one file that is read.
pub(crate) const FILE_LIMIT: usize = 1_342_177_280;

/// The first source that isn't read.
#[derive(Clone, Copy)]
pub struct Unread {
    /// Its position among the sources, from 0 on.
    pub position: u32,
    /// Why it isn't read. Want of memory is also that of keeping its text.
    pub why: ReadRefusal,
}

/// Reads the source at this position.
fn read_source<F: FileStore>(
    alloc: Global,
    source: &str,
    position: u32,
    files: &mut F,
) -> Result<Vec<u8>, Unread>
    ensures counts { MatchResult result (λ _. F.counts files.new ≡ F.counts files.old)
        (λ unread. CountsRead (F.counts files.old) (F.counts files.new) (Err unread.why)) }
    ensures size { IfOk result (λ text. length text.items ≤ file_limit) }
    ensures telling { F.tells files.old → F.tells files.new }
    ensures kept { F.tells files.old → SameFiles (F.content files.old) (F.content files.new) }
    ensures told { F.tells files.old → MatchResult result
        (λ text. F.content files.old source.now ≡ Some text.items)
        (λ unread. (unread.position ≡ position) × IsUnreadable unread.why (F.content files.old source.now)) }
{
    match files.read(alloc, source, FILE_LIMIT) {
        Ok(text) => Ok(text),
        Err(why) => Err(Unread { position, why }),
    }
}

/// Appends a text.
fn push_text(texts: &mut Vec<Vec<u8>>, text: Vec<u8>) -> Result<(), NoMemory>
    ensures { OnOk result (texts.new.items ≡ texts.old.items ++ text ∷ []) }
{
    Ok(texts.push(text)?)
}

/// Reads the sources in their order, up to the first that isn't read.
pub(crate) fn read_sources<F: FileStore>(
    alloc: Global,
    sources: &[&str],
    files: &mut F,
) -> Result<Vec<Vec<u8>>, Unread>
    requires few { length sources.now ≤ 16 }
    ensures counts { MatchResult result (λ _. F.counts files.new ≡ F.counts files.old)
        (λ unread. CountsRead (F.counts files.old) (F.counts files.new) (Err unread.why)) }
    ensures few { IfOk result (λ texts. length texts.items ≤ 16) }
    ensures small { IfOk result (λ texts. AllByRecursion (λ t. length t.items + 1 < 2 ^ 32) texts.items) }
    ensures telling { F.tells files.old → F.tells files.new }
    ensures kept { F.tells files.old → SameFiles (F.content files.old) (F.content files.new) }
    ensures told { F.tells files.old → MatchResult result
        (λ texts. AreRead (F.content files.old) (map (λ s. s.now) sources.now) (map (λ t. t.items) texts.items))
        (λ unread. StopsAt (F.content files.old) unread.why (map (λ s. s.now) sources.now) unread.position) }
{
    let mut texts = Vec::new(alloc);
    let mut position = 0;
    for source in sources {
        let text = read_source(alloc, source, position, files)?;
        match push_text(&mut texts, text) {
            Ok(()) => {}
            Err(NoMemory) => {
                return Err(Unread {
                    position,
                    why: ReadRefusal::NoMemory,
                });
            }
        }
        position += 1;
    }
    Ok(texts)
}
