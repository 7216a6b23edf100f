//! Laws of the definitions: each function's contract is one, and the function does nothing.

ghost use Rattle.std.specs.Prelude.{◌≡◌, ℕ, suc, ◌+◌, ◌≤◌, ◌++◌, Bool, List, [], if◌then◌else◌};
ghost use Rattle.pcc_base.specs.declared.fault.FaultKind.{FaultKind};
ghost use Rattle.pcc_base.specs.declared.fault.FaultKind.TheVariants.{Syntax, TooDeep};
ghost use Rattle.c_lex.specs.declared.token.Token.{Token};
ghost use Rattle.c_syntax.specs.Statements.{ExternalTree};
ghost use Rattle.c_syntax.specs.Grammar.{Tree};
ghost use Rattle.c_grammar.specs.Chains.{Found, Faults};
ghost use Rattle.c_grammar.specs.Faults.{Begins, FaultAt};
ghost use Rattle.c_grammar.specs.Laws.{Ahead, RisesTo};
ghost use Rattle.c_grammar.specs.StatementReading.{below_of, read_unit};
ghost use Rattle.c_grammar.specs.Worked.{an_array, an_int, nested, one};

/// A list of tokens has one raw tree at most, of one height.
pub fn one_raw_tree()
    ensures { (tokens : List Token) (g h : ℕ) (t u : List ExternalTree) → Tree tokens g t → Tree tokens h u → (g ≡ h)
        × (t ≡ u) }
{}

/// A list of tokens has one fault at most, of one kind, and none where it has a tree of at most that height.
pub fn one_fault_place()
    ensures one { (most : ℕ) (j k : FaultKind) (a b rest others : List Token) → FaultAt most j a rest
        → FaultAt most k b others → a ++ rest ≡ b ++ others → (j ≡ k) × (a ≡ b) × (rest ≡ others) }
    ensures none { (most : ℕ) (k : FaultKind) (a rest : List Token) (h : ℕ) (t : List ExternalTree) → FaultAt most k a rest
        → Tree (a ++ rest) h t → h ≤ most → ⊥ }
{}

/// Where the faults of small lists of tokens stand (`specs/Worked.antt`): a number begins no program; behind `int` a
/// name is missing at the end; and in `int a[(1` the parenthesis is too deep where a program may be 2 high.
pub fn worked_faults()
    ensures first { FaultAt 256 Syntax [] one }
    ensures end { FaultAt 256 Syntax an_int [] }
    ensures deep { FaultAt 2 TooDeep an_array nested }
{}

/// What is read of all tokens, where the height may be at most `suc n`, is their tree, and each tree is read.
pub fn read_trees()
    ensures sound { (n : ℕ) (ts : List Token) (t : List ExternalTree) → read_unit (below_of n) ts ≡ Found t []
        → (h : ℕ) × (h ≤ suc n) × Tree ts h t }
    ensures complete { (n : ℕ) (ts : List Token) (h : ℕ) (t : List ExternalTree) → Tree ts h t → h ≤ suc n
        → read_unit (below_of n) ts ≡ Found t [] }
{}

/// Where the reading of a unit faults, whose height may be at most `suc n`, the tokens before the fault begin a program
/// of at most this height.
pub fn faults_begin_programs()
    ensures { (n : ℕ) (ts : List Token) (deep : Bool) (us : List Token) → read_unit (below_of n) ts ≡ Faults deep us
        → (before : List Token) × (ts ≡ before ++ us) × Begins (suc n) before }
{}

/// What is read of a unit rests on the tokens that are read and on the next one alone, whatever stands behind it.
pub fn readings_look_one_ahead()
    ensures { (n : ℕ) → Ahead (read_unit (below_of n)) }
{}

/// Where the height may be at least three more, what was found is found, a fault that is not of height stays, and one
/// of height moves on.
pub fn faults_of_height_move_on()
    ensures { (n k : ℕ) (ts : List Token) → n + 3 ≤ k
        → RisesTo (read_unit (below_of n) ts) (read_unit (below_of k) ts) }
{}

/// Where the reading of a unit faults, whose height may be at most `suc n`, there the fault of the tokens stands: what
/// is before it begins a program of at most this height, and with the next token none of this height does, or none at
/// all.
pub fn faults_stand_there()
    ensures { (n : ℕ) (ts : List Token) (deep : Bool) (us : List Token) → read_unit (below_of n) ts ≡ Faults deep us
        → (before : List Token) × (ts ≡ before ++ us) × FaultAt (suc n) (if deep then TooDeep else Syntax) before us }
{}
