ghost use Rattle.ia32_laws.specs.RoutinesLaws.{CheckTraps, CheckPasses};
ghost use Rattle.ia32_laws.specs.RoutinesOps.{NumbersSameFollow, ParamFollows, ExitFollows, PutcharFollows};
ghost use Rattle.ia32_laws.specs.RoutinesOps.{GetcharFollows};

/// The jump to the trap of a failed check leads there where its condition holds, and else to what follows it.
pub fn checks_trap()
    ensures traps { CheckTraps }
    ensures passes { CheckPasses }
{}

/// Where a state of the machine shows one of the program at one of these ops, the machine follows the op's step through
/// its row, over any placement that supports the graph.
pub fn outside_is_followed()
    ensures same { NumbersSameFollow }
    ensures param { ParamFollows }
    ensures exit { ExitFollows }
    ensures putchar { PutcharFollows }
    ensures getchar { GetcharFollows }
{}
