//! Laws of typed programs and the tokens of their files: each function's contract is one, and the function does nothing.

ghost use Rattle.pcc_program.specs.TokensLaws.{FilesBoundGraphs, PartsHaveTokens, TenTokens, TextsBoundGraphs};

/// Each expression, place, statement, declared item, label, parameter and function of a typed program has a token of its
/// own in the files, so the program has no more of these parts than its files have tokens.
pub fn parts_have_tokens()
    ensures { PartsHaveTokens }
{}

/// Graphs with at most 20 points, 2 argument words and one frame array for each part of the typed program of files have
/// no more for each token of the files.
pub fn tokens_bound_graphs()
    ensures files { FilesBoundGraphs }
    ensures texts { TextsBoundGraphs }
{}

/// `int main(void){return 0;}` has ten tokens, its typed program three parts, and its graph four points.
pub fn ten_tokens()
    ensures { TenTokens }
{}
