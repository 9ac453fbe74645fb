//! What holds of the tokens of every text. The functions without a body carry it in their contracts.

ghost use Rattle.ir_lex.specs.Laws.{TokensAreUnique, TokensAreCut, CutIsSpelled};

/// No text is spelled by two lists of tokens.
pub fn tokens_are_unique()
    ensures { TokensAreUnique }
{}

/// A text is cut at the longest token behind each gap, up to the first place where none stands.
pub fn tokens_are_cut()
    ensures { TokensAreCut }
{}

/// A text is spelled exactly by the tokens that it is cut into, where they go up to its end.
pub fn cut_is_spelled()
    ensures { CutIsSpelled }
{}
