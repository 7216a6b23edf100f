ghost use Rattle.ia32_laws.specs.Words.{ComparisonDecides, LeftShiftIs, RightShiftIs, LowHalfIs};
ghost use Rattle.ia32_laws.specs.Words.{DivisionTraps, DivisionIs, OrderDecides, UnsignedDivisionIs};
ghost use Rattle.ia32_laws.specs.Words.{UnsignedDivisionTraps, UnsignedShiftIs, ZeroExtensionIs};
ghost use Rattle.ia32_laws.specs.CoresLaws.{LowPuts, HalfPuts, ShiftPuts, PlacesCompare, SetPuts, BranchGoes};
ghost use Rattle.ia32_laws.specs.CoresLaws.{DivisionStops, QuotientPuts, RemainderPuts, WordPasses};
ghost use Rattle.ia32_laws.specs.CoresOps.{LowFollows, HalfFollows, LeftShiftFollows, RightShiftFollows};
ghost use Rattle.ia32_laws.specs.CoresOps.{NumbersSetFollow, QuotientFollows, RemainderFollows};
ghost use Rattle.ia32_laws.specs.CoresOps.{NumbersBranchFollow, JumpFollows, BlocksStand, UnsignedQuotientFollows};
ghost use Rattle.ia32_laws.specs.CoresOps.{UnsignedRemainderFollows, UnsignedRightShiftFollows};
ghost use Rattle.ia32_laws.specs.Worked.{ShiftsAreRows, DivisionsAreRows, ComparisonsAreRows, PartsAreRows};

/// What instructions make of the words of numbers is what the ops make of the numbers: the conditions of comparisons
/// after CMP, of numbers with sign and without, SHL, SAR and SHR by a byte, CDQ with IDIV, DIV with 0 above the
/// dividend, MOVSX of 16 bits, and MOVZX of a byte.
pub fn words_are_numbers()
    ensures comparison { ComparisonDecides }
    ensures order { OrderDecides }
    ensures shl { LeftShiftIs }
    ensures sar { RightShiftIs }
    ensures shr { UnsignedShiftIs }
    ensures no_quotient { DivisionTraps }
    ensures quotient { DivisionIs }
    ensures no_unsigned_quotient { UnsignedDivisionTraps }
    ensures unsigned_quotient { UnsignedDivisionIs }
    ensures low_half { LowHalfIs }
    ensures zero_extension { ZeroExtensionIs }
{}

/// The low byte and the low 16 bits of the word of a place, and a word shifted by a byte, come to another place.
pub fn rows_of_words()
    ensures low { LowPuts }
    ensures half { HalfPuts }
    ensures shift { ShiftPuts }
{}

/// Two words compare where they stand: 1 or 0 comes to a place by whether the flags of CMP meet a condition, and a branch
/// leads to what stands behind the label that the condition chooses.
pub fn rows_compare_words()
    ensures flags { PlacesCompare }
    ensures set { SetPuts }
    ensures branch { BranchGoes }
{}

/// A division of the words of two places comes to IDIV, or to DIV where they have no sign, and traps there where they have no quotient; else the quotient
/// or the remainder comes to a third place.
pub fn rows_divide_words()
    ensures stops { DivisionStops }
    ensures quotient { QuotientPuts }
    ensures remainder { RemainderPuts }
{}

/// The word of a place goes onto the stack.
pub fn rows_pass_words()
    ensures { WordPasses }
{}

/// Where a state of the machine shows one of the program at one of these ops, the machine follows the op's step through
/// its row; to blocks, where their first points stand behind their labels, as they do where the graph's items stand.
pub fn rows_follow_steps()
    ensures low { LowFollows }
    ensures half { HalfFollows }
    ensures set { NumbersSetFollow }
    ensures shl { LeftShiftFollows }
    ensures sar { RightShiftFollows }
    ensures shr { UnsignedRightShiftFollows }
    ensures div { QuotientFollows }
    ensures rem { RemainderFollows }
    ensures udiv { UnsignedQuotientFollows }
    ensures urem { UnsignedRemainderFollows }
    ensures branch { NumbersBranchFollow }
    ensures jump { JumpFollows }
    ensures blocks { BlocksStand }
{}

/// Rows over slots and over registers, instruction by instruction.
pub fn worked_rows()
    ensures shifts { ShiftsAreRows }
    ensures divisions { DivisionsAreRows }
    ensures comparisons { ComparisonsAreRows }
    ensures parts { PartsAreRows }
{}
