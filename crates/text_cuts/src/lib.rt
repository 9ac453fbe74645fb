//! The law of pieces of text: they are cut into their tokens. The function without a body carries it in its contract.
#![tactic(auto)]

ghost use Rattle.text_cuts.specs.Cut.{PiecesAreCut};

/// The text of pieces whose tokens can be written is cut into exactly these tokens.
pub fn pieces_are_cut()
    ensures { PiecesAreCut }
{}
