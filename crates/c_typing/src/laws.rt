//! Laws of the definitions: each function's contract is one, and the function does nothing.

ghost use Rattle.std.specs.Prelude.{◌≡◌, [], ◌∷◌, pos, false, Some, None};
ghost use Rattle.pcc_base.specs.declared.fault.FaultKind.TheVariants as kinds;
ghost use Rattle.pcc_base.specs.declared.refusal.Limit.TheVariants.{Frame};
ghost use Rattle.c_tree.specs.declared.types.IntegerType.TheVariants.{Int, Char, Short, UnsignedInt};
ghost use Rattle.c_tree.specs.declared.types.ValueType.TheVariants.{Integer, Pointer};
ghost use Rattle.c_tree.specs.Worked.{converts_200, two_functions};
ghost use Rattle.c_typing.specs.Faults.{fault};
ghost use Rattle.c_typing.specs.Laws.{LeastIsLeast, LeastOfBoth, NumbersChangeNothing};
ghost use Rattle.c_typing.specs.Laws.{OneTypedProgram, StatementsCountUp, TypedWithoutFault};
ghost use Rattle.c_typing.specs.Rows.{of_choice, of_difference, of_numbers, of_order, of_shift, of_sum};
ghost use Rattle.c_typing.specs.Typed.{elaborated, fault_of, limit_found, objects_found};
ghost use Rattle.c_typing.specs.Worked.{
  array_without_elements,
  at,
  case_twice,
  char_from_200,
  declared_again,
  defined_twice,
  extern_inside,
  function_inside,
  large_frame,
  letters,
  no_body,
  no_null_constant,
  no_value,
  nothing,
  null_constant,
  objects_in_files,
  pointer_and_switch,
  pointer_to_return,
  pointers_without_size,
  prototype_with_number,
  prototype_with_value,
  shadows,
  short_cut,
  static_apart,
  too_many_letters,
  too_many_values,
  two_faults,
  undeclared,
};

/// The definitions find the faults of small files (`specs/Worked.antt`) where a reader expects them.
pub fn worked_faults()
    ensures main { fault_of nothing (at 0 1) ≡ Some (fault kinds.NoMain (at 0 1)) }
    ensures list { fault_of too_many_values (at 0 43) ≡ Some (fault kinds.Initialiser (at 0 30)) }
    ensures name { fault_of undeclared (at 0 26) ≡ Some (fault kinds.Undeclared (at 0 23)) }
    ensures body { fault_of no_body (at 0 44) ≡ Some (fault kinds.NoBody (at 0 37)) }
    ensures storage { fault_of extern_inside (at 0 70) ≡ Some (fault kinds.TypeRule (at 0 46)) }
    ensures twice { fault_of defined_twice (at 1 9) ≡ Some (fault kinds.Redeclared (at 1 5)) }
    ensures apart { fault_of static_apart (at 1 26) ≡ Some (fault kinds.Undeclared (at 1 23)) }
    ensures string { fault_of too_many_letters (at 0 17) ≡ Some (fault kinds.Initialiser (at 0 11)) }
    ensures pointer { fault_of no_null_constant (at 0 39) ≡ Some (fault kinds.PointerUse (at 0 25)) }
    ensures label { fault_of case_twice (at 0 65) ≡ Some (fault kinds.CaseLabel (at 0 44)) }
    ensures value { fault_of no_value (at 0 11) ≡ Some (fault kinds.Initialiser (at 0 7)) }
    ensures least { fault_of two_faults (at 0 33) ≡ Some (fault kinds.NotAssignable (at 0 17)) }
{}

/// The definitions find the faults of declarators where a reader expects them: what stands in a prototype's initialiser
/// before the initialiser itself, a name that is declared twice before the function that no body may declare, and what
/// the specifiers and the `*` forbid at the name, also beside a faulty size or parameter, which hides all else.
pub fn worked_declarators()
    ensures value { fault_of prototype_with_value (at 0 17) ≡ Some (fault kinds.Undeclared (at 0 15)) }
    ensures number { fault_of prototype_with_number (at 0 15) ≡ Some (fault kinds.TypeRule (at 0 13)) }
    ensures body { fault_of function_inside (at 0 47) ≡ Some (fault kinds.Redeclared (at 0 27)) }
    ensures elements { fault_of pointers_without_size (at 0 10) ≡ Some (fault kinds.PointerUse (at 0 6)) }
    ensures result { fault_of pointer_to_return (at 0 16) ≡ Some (fault kinds.PointerUse (at 0 6)) }
    ensures size { fault_of array_without_elements (at 0 17) ≡ Some (fault kinds.ArraySize (at 0 13)) }
{}

/// The rows give of operands without a sign the types that a reader expects of C99 6.3.1.8 and 6.5.5 to 6.5.15: the
/// common type of two numbers, for a shift that of its left operand alone, and an `int` where numbers are compared.
pub fn worked_rows()
    ensures product { of_numbers (Integer Char) (Integer UnsignedInt) ≡ Some (Integer UnsignedInt) }
    ensures sum { of_sum (Integer UnsignedInt) (Integer Int) ≡ Some (Integer UnsignedInt) }
    ensures difference { of_difference (Integer Short) (Integer Char) ≡ Some (Integer Int) }
    ensures moved { of_sum (Integer UnsignedInt) (Pointer UnsignedInt) ≡ Some (Pointer UnsignedInt) }
    ensures apart { of_difference (Pointer UnsignedInt) (Pointer Int) ≡ None }
    ensures shift { of_shift (Integer Short) (Integer UnsignedInt) ≡ Some (Integer Int) }
    ensures order { of_order (Integer UnsignedInt) (Integer UnsignedInt) ≡ Some (Integer Int) }
    ensures choice { of_choice (Integer Int) false (Integer UnsignedInt) false ≡ Some (Integer UnsignedInt) }
{}

/// Small files have no fault where a reader expects none: a name that is shadowed, an object that is declared
/// again, and in another file too, a string that fits without its zero, a null constant, and a constant whose
/// evaluation doesn't come to a division by zero. A frame is too large by a word.
pub fn worked_programs()
    ensures shadowing { fault_of shadows (at 0 75) ≡ None }
    ensures again { fault_of declared_again (at 1 35) ≡ None }
    ensures once { objects_found declared_again ≡ record { element = Int; elements = pos 1 ∷ [] } ∷ [] }
    ensures string { fault_of letters (at 0 42) ≡ None }
    ensures null { fault_of null_constant (at 0 41) ≡ None }
    ensures constant { objects_found short_cut ≡ record { element = Int; elements = pos 1 ∷ [] } ∷ [] }
    ensures frame { limit_found large_frame ≡ Some (Frame 0 16388) }
{}

/// The typed programs of small files are those that a reader writes by hand: a pointer parameter, a loop, a text
/// that initialises an array, a switch and a null constant; and a value that is converted to `char`. Static objects
/// are numbered by their first places in the text, over all files: an `extern` object by the place that declares it
/// first, a string literal behind the array that it initialises, and one that is never defined not at all.
pub fn worked_trees()
    ensures switch { elaborated pointer_and_switch ≡ Some (two_functions 1) }
    ensures converts { elaborated char_from_200 ≡ Some converts_200 }
    ensures objects { objects_found objects_in_files
        ≡ record { element = Int; elements = pos 5 ∷ [] }
        ∷ record { element = Char; elements = pos 104 ∷ pos 105 ∷ pos 0 ∷ [] }
        ∷ record { element = Char; elements = pos 104 ∷ pos 105 ∷ pos 0 ∷ [] }
        ∷ record { element = Short; elements = pos 7 ∷ [] }
        ∷ record { element = Short; elements = pos 1 ∷ pos 2 ∷ pos 0 ∷ [] }
        ∷ record { element = Int; elements = pos 0 ∷ [] } ∷ [] }
{}

/// The least of faults is one of them, and none precedes it; the least of two lists is the earlier one of the least of
/// each.
#[tactic(auto, using(crate::proofs::LeastFault::least_is_least, crate::proofs::LeastFault::least_of_both))]
pub fn least_fault()
    ensures least { LeastIsLeast }
    ensures both { LeastOfBoth }
{}

/// Files have one typed program at most, and they have one exactly where no fault is answered.
#[tactic(auto, using(crate::proofs::OneProgram::one_typed_program, crate::proofs::OneProgram::typed_without_fault))]
pub fn one_typed_program()
    ensures one { OneTypedProgram }
    ensures exactly { TypedWithoutFault }
{}

/// Which numbers objects and functions have changes no fault of files, and nothing that they note.
pub fn numbers_change_nothing()
    ensures { NumbersChangeNothing }
{}

/// Statements and declared items of a typed program are numbered from 0, in the order of the text, over all files.
pub fn statements_count_up()
    ensures { StatementsCountUp }
{}
