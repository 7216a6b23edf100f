ghost use Rattle.ia32_laws.specs.KeepsLaws.{ShownInFrame, ProtectedIsApart, PushedIsApart, MovedShows, SetShows};
ghost use Rattle.ia32_laws.specs.KeepsLaws.{ArrayShows, OwnArrayShows, ElementShows};
ghost use Rattle.ia32_laws.specs.MovesLaws.{MovesLead, MovesShow};
ghost use Rattle.ia32_laws.specs.MovesWorked.{MovesSupport};
ghost use Rattle.ia32_laws.specs.KeepsOps.{ExtensionFollows, NumberFollows, CopyFollows, SumFollows, ZeroExtensionFollows};
ghost use Rattle.ia32_laws.specs.KeepsOps.{DifferenceFollows, AndFollows, OrFollows, XorFollows, ProductFollows};
ghost use Rattle.ia32_laws.specs.KeepsOps.{NegationFollows, ComplementFollows, MarkFollows, TurnFollows};

/// A variable may stand in one register after a point and in another before the next, where an instruction moves it.
pub fn a_move_is_supported()
    ensures { MovesSupport }
{}

/// A state of the machine that shows one of the program is in the frame of the current call, with the stack far above
/// the data. What is protected has no byte in common with a place for a variable of the current call, and none below
/// ESP but in the data, nor of what is pushed.
pub fn protected_is_apart()
    ensures in_frame { ShownInFrame }
    ensures apart { ProtectedIsApart }
    ensures pushed { PushedIsApart }
{}

/// The next state is shown behind the row of an op once all that is protected and all places are kept, but for the
/// variable that the op sets, which stands in its place: for any number of waiting calls, arrays and static objects.
pub fn kept_stays_shown()
    ensures moved { MovedShows }
    ensures set { SetShows }
{}

/// A state that is shown with variables in their places behind a point that its own point follows is shown with them in
/// their places before its own point, once the machine has gone through the moves between the two; and where its point
/// comes next, the machine comes there.
pub fn moves_are_shown()
    ensures lead { MovesLead }
    ensures show { MovesShow }
{}

/// The next state is shown once an array of any depth, or a static object, has other elements at its address, and all
/// outside them is kept; of an array of the current call, all outside their words. So it is where one element is
/// stored.
pub fn changed_array_is_shown()
    ensures array { ArrayShows }
    ensures own_array { OwnArrayShows }
    ensures element { ElementShows }
{}

/// The machine follows these ops through their items, over any placement that supports the graph.
pub fn rows_follow()
    ensures number { NumberFollows }
    ensures copy { CopyFollows }
    ensures sum { SumFollows }
    ensures difference { DifferenceFollows }
    ensures and { AndFollows }
    ensures or { OrFollows }
    ensures xor { XorFollows }
    ensures product { ProductFollows }
    ensures negation { NegationFollows }
    ensures complement { ComplementFollows }
    ensures extension { ExtensionFollows }
    ensures zero_extension { ZeroExtensionFollows }
    ensures mark { MarkFollows }
    ensures turn { TurnFollows }
{}
