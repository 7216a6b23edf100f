ghost use Rattle.ia32_rows.specs.Laws.{StraightGoes, ReadGives, OperateGives, WritePuts, NumberPuts, CopyPuts};
ghost use Rattle.ia32_rows.specs.Laws.{ExtendGives, CopyBytePuts, CopyToSlotPuts, OperationPuts, CommutingPuts};
ghost use Rattle.ia32_rows.specs.Laws.{SumPuts, OthersKept};
ghost use Rattle.ia32_rows.specs.Unary.{NegationPuts, ComplementPuts, ExtensionPuts, LowestBytes, ZeroExtensionPuts};
ghost use Rattle.ia32_rows.specs.Products.{ProductPuts};

/// The machine goes through straight code that stands at EIP to what follows it.
pub fn straight_code_goes()
    ensures { StraightGoes }
{}

/// The word of a place comes to a register, and that of a register to a place; numbers and copies come to a place. A
/// byte of a register comes to a register with its sign, and a byte of any place to a byte of a register or to
/// a slot.
pub fn rows_move_words()
    ensures read { ReadGives }
    ensures extend { ExtendGives }
    ensures write { WritePuts }
    ensures number { NumberPuts }
    ensures copy { CopyPuts }
    ensures copy_byte { CopyBytePuts }
    ensures copy_to_slot { CopyToSlotPuts }
{}

/// The result of an operation on the words of two places comes to a third, which may be one of them.
pub fn rows_compute_words()
    ensures in_register { OperateGives }
    ensures operation { OperationPuts }
    ensures commuting { CommutingPuts }
    ensures sum { SumPuts }
    ensures product { ProductPuts }
{}

/// The negation and the complement of the word of a place come to another, which may be the same; so does a byte with
/// its sign, and with zero bits.
pub fn rows_change_words()
    ensures negation { NegationPuts }
    ensures complement { ComplementPuts }
    ensures extension { ExtensionPuts }
    ensures zero_extension { ZeroExtensionPuts }
{}

/// What loads of the lowest byte of a word below EBP, and of its lowest two bytes, give.
pub fn words_have_bytes()
    ensures { LowestBytes }
{}

/// A place that is apart from the one that a row writes contains what it did.
pub fn other_places_are_kept()
    ensures { OthersKept }
{}
