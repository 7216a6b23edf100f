//! Laws of legal maps: each function's contract is one, and the function does nothing.

ghost use Rattle.ia32_placements.specs.Laws.{LegalEdgesHold, LegalFramesHold, LegalMapsSupport};
ghost use Rattle.ia32_placements.specs.Laws.{LegalPointsSupport};
ghost use Rattle.ia32_placements.specs.Laws.{MovesAreFew, NothingStandsFirst, RegistersAreFew, SpotsAreApart};
ghost use Rattle.ia32_placements.specs.Laws.{SlotsAreOwn, SpotsHoldWidths};
ghost use Rattle.ia32_placements.specs.Worked.{EaxSupports, EbxIsMoved, PlacesAreRegisters};

/// Columns of a board without a cell in common are registers without one, and as many as a variable is wide are a
/// register for it.
pub fn places_are_registers()
    ensures apart { SpotsAreApart }
    ensures widths { SpotsHoldWidths }
{}

/// In a legal map each point has what the code of its op asks of a placement: variables stand apart, in places for
/// them, and what lives through the op stays where the op leaves it. What stands before a point that follows another
/// stood behind that one, nothing stands before the first point, and the frame arrays are apart in the frame. So the
/// graph can have code over the map, with instructions that move variables between points.
pub fn legal_maps_are_supported()
    ensures points { LegalPointsSupport }
    ensures edges { LegalEdgesHold }
    ensures first { NothingStandsFirst }
    ensures frames { LegalFramesHold }
    ensures supports { LegalMapsSupport }
{}

/// In a legal map a variable has one slot at most, apart from those of others. At most eight variables stand in
/// registers on one side of a point, and at most sixteen stand elsewhere before a point than behind one that it
/// follows.
pub fn moves_are_few()
    ensures slots { SlotsAreOwn }
    ensures registers { RegistersAreFew }
    ensures moves { MovesAreFew }
{}

/// Which registers and slots a few places are; a small graph is supported by a legal map in which nothing moves; and a
/// MOV brings a variable from EAX to EBX (`specs/Worked.antt`).
pub fn worked_example()
    ensures places { PlacesAreRegisters }
    ensures whole { EaxSupports }
    ensures moved { EbxIsMoved }
{}
