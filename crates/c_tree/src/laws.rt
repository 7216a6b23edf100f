//! Laws of the definitions: each function's contract is one, and the function does nothing.

ghost use Rattle.std.specs.Prelude.{◌≡◌, [], ◌∷◌, false, negsuc, pos, true};
ghost use Rattle.pcc_base.specs.Outcome.{Ended, Goes};
ghost use Rattle.pcc_base.specs.declared.run.Trap.TheVariants.{Divide};
ghost use Rattle.c_tree.specs.Evaluation.{source_outcome};
ghost use Rattle.c_tree.specs.Operators.{
  Traps,
  common,
  number,
  numbers_result,
  numbers_type,
  numbers_value,
  truth,
  unary_type,
};
ghost use Rattle.c_tree.specs.Sizes.{function_size};
ghost use Rattle.c_tree.specs.Worked.{
  breaks_nothing,
  converts_200,
  declared_listed,
  nothing_listed,
  numbered_from,
  reads_no_local,
  returns_no_value,
  shown,
  sum_wraps,
  takes_and_ignores,
  two_functions,
  writes_he,
  x_listed,
};
ghost use Rattle.c_tree.specs.WellTyped.{WellTyped};
ghost use Rattle.c_tree.specs.declared.expression.BinaryOp.TheVariants.{Divide as Division, Greater, Less, Remainder};
ghost use Rattle.c_tree.specs.declared.expression.BinaryOp.TheVariants.{ShiftRight};
ghost use Rattle.c_tree.specs.declared.expression.UnaryOp.TheVariants.{Not};
ghost use Rattle.c_tree.specs.declared.types.IntegerType.TheVariants.{Char, Int, Short, UnsignedInt};

/// The definitions give small programs (`specs/Worked.antt`) the outcomes that a reader expects.
///
/// Before the call of `main`, which takes a turn, nothing has happened. After it each statement was visited
/// with the values of the locals that are listed for it, in order. In the first program a local is 0 before its
/// declaration has run, the sum wraps, and the exit status is the low byte of 2147483647. In the second the
/// bytes of `HE` were written, one after the other, and the exit status is 2. In the third 200 is converted to
/// `char`, as it initialises an element of that type, so it is below 0. A parameter counts in the size of its
/// function.
pub fn worked_example()
    ensures before { source_outcome sum_wraps x_listed [] 0
        ≡ record { visits = []; taken = 0; written = []; end = Goes } }
    ensures wraps { source_outcome sum_wraps x_listed [] 1
        ≡ record {
          visits = shown 0 (pos 0 ∷ []) ∷ shown 1 (pos 2147483647 ∷ [])
              ∷ shown 2 (negsuc 2147483647 ∷ []) ∷ [];
          taken = 0;
          written = [];
          end = Ended 255;
        } }
    ensures writes { source_outcome writes_he declared_listed [] 1
        ≡ record {
          visits = shown 0 [] ∷ shown 1 (pos 70 ∷ []) ∷ shown 2 (pos 70 ∷ pos 72 ∷ [])
              ∷ shown 3 (pos 70 ∷ pos 72 ∷ []) ∷ shown 4 (pos 70 ∷ pos 72 ∷ []) ∷ [];
          taken = 0;
          written = 72 ∷ 69 ∷ [];
          end = Ended 2;
        } }
    ensures converts { source_outcome converts_200 nothing_listed [] 1
        ≡ record { visits = shown 0 [] ∷ shown 1 [] ∷ []; taken = 0; written = []; end = Ended 1 } }
    ensures parameters { function_size (takes_and_ignores 90) ≡ 91 }
{}

/// The definition of well typed programs takes one with a pointer, a null constant, a text, a loop and a switch, and
/// refuses programs that break one rule each: a `main` with a parameter, a `break` that stands in no loop or switch, a
/// local that isn't there, a value of type `void` that is returned, and statements that aren't numbered from 0.
pub fn worked_types()
    ensures typed { WellTyped (two_functions 1) }
    ensures main { WellTyped (two_functions 0) → ⊥ }
    ensures jump { WellTyped breaks_nothing → ⊥ }
    ensures local { WellTyped reads_no_local → ⊥ }
    ensures value { WellTyped returns_no_value → ⊥ }
    ensures numbers { WellTyped (numbered_from 1) → ⊥ }
{}

/// The operators give of numbers with and without a sign what a reader expects of C99 6.3.1 and 6.5.5 to 6.5.8: the type
/// that two numbers have in common, that of a shift and that of a comparison, quotients, remainders, shifts and orders,
/// and which of them trap.
pub fn worked_operators()
    ensures narrow { common Char Short ≡ Int }
    ensures mixed { common Char UnsignedInt ≡ UnsignedInt }
    ensures shifts { numbers_type ShiftRight Short UnsignedInt ≡ Int }
    ensures compares { numbers_result Less (numbers_type Less UnsignedInt Int) ≡ Int }
    ensures negates { unary_type Not UnsignedInt ≡ Int }
    ensures signed_quotient { numbers_value Int Division (negsuc 6) (pos 2) ≡ number (negsuc 2) }
    ensures unsigned_quotient { numbers_value UnsignedInt Division (negsuc 6) (pos 2) ≡ number (pos 2147483644) }
    ensures unsigned_remainder { numbers_value UnsignedInt Remainder (negsuc 0) (pos 10) ≡ number (pos 5) }
    ensures signed_shift { numbers_value Int ShiftRight (negsuc 2147483647) (pos 31) ≡ number (negsuc 0) }
    ensures unsigned_shift { numbers_value UnsignedInt ShiftRight (negsuc 2147483647) (pos 31) ≡ number (pos 1) }
    ensures signed_order { numbers_value Int Greater (negsuc 0) (pos 0) ≡ truth false }
    ensures unsigned_order { numbers_value UnsignedInt Greater (negsuc 0) (pos 0) ≡ truth true }
    ensures signed_trap { numbers_value Int Division (negsuc 2147483647) (negsuc 0) ≡ Traps Divide }
    ensures unsigned_quotient_of_all { numbers_value UnsignedInt Division (negsuc 2147483647) (negsuc 0) ≡ number (pos 0) }
    ensures unsigned_trap { numbers_value UnsignedInt Remainder (pos 1) (pos 0) ≡ Traps Divide }
{}
