//! A law: the function's contract is it, and the function does nothing.

ghost use Rattle.map_text.specs.Maps.{Map};
ghost use Rattle.map_text.specs.Rules.{IsMap};
ghost use Rattle.map_file.specs.Numbered.{IsNumbered};

/// The parts of each map are few enough to have numbers.
pub fn maps_are_numbered()
    ensures { (m : Map) → IsMap m → IsNumbered m }
{}
