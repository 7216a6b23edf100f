ghost use Rattle.std.specs.Prelude.{◌≡◌, ℕ, List};
ghost use Rattle.pcc_base.specs.declared.fault.Fault.{Fault};
ghost use Rattle.c_lex.specs.declared.token.Token.{Token};
ghost use Rattle.c_lex.specs.Tokens.{HasTokens, HasFault};

/// A text has one token list at most, and none where it has a fault; it has one fault at most, behind
/// one list of tokens.
pub fn one_token_list()
    ensures tokens { (file : ℕ) (text : List ℕ) (a b : List Token) → HasTokens file text a
        → HasTokens file text b → a ≡ b }
    ensures either { (file : ℕ) (text : List ℕ) (a b : List Token) (fault : Fault) → HasTokens file text a
        → HasFault file text b fault → ⊥ }
    ensures faults { (file : ℕ) (text : List ℕ) (a b : List Token) (e f : Fault) → HasFault file text a e
        → HasFault file text b f → (a ≡ b) × (e ≡ f) }
{}
