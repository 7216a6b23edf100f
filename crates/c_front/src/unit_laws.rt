//! Laws of the raw trees of texts: each clause is one, and the functions do nothing.

ghost use Rattle.c_front.specs.UnitLaws.{UnitsAreFew, UnitsAreSources, UnitsHaveNames};

/// The tokens of the raw trees of texts are at different places, their numbers are of `int`, and there are at most
/// 65,536 of them.
pub fn units_are_sources()
    ensures sources { UnitsAreSources }
    ensures few { UnitsAreFew }
{}

/// The identifiers of the raw trees of texts are names.
pub fn units_have_names()
    ensures { UnitsHaveNames }
{}
