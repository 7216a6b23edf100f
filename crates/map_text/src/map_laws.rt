//! Laws of the text of a whole map: each function's contract is one, and the function does nothing.

ghost use Rattle.std.specs.Prelude.{◌≡◌, ◌++◌, [], List, Some, ℕ};
ghost use Rattle.map_text.specs.Maps.{Map};
ghost use Rattle.map_text.specs.Reading.{map_in};
ghost use Rattle.map_text.specs.Rules.{IsMap};
ghost use Rattle.map_text.specs.Words.{map_text};

/// A text that begins with that of a map is read as the map, with what stands behind it.
pub fn map_is_read()
    ensures { (m : Map) (rest : List ℕ) → IsMap m → map_in (map_text m ++ rest) ≡ Some (m, rest) }
{}

/// A text is that of one whole map at most.
pub fn one_whole_map()
    ensures { (a b : Map) → IsMap a → IsMap b → map_text a ≡ map_text b → a ≡ b }
{}

/// No text of a map is the beginning of another's.
pub fn no_prefix()
    ensures { (a b : Map) (rest : List ℕ) → IsMap a → IsMap b → map_text a ++ rest ≡ map_text b → rest ≡ [] }
{}
