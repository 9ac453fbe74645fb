//! The laws of spelling, each carried by a function without a body.

ghost use Rattle.spellable.specs.Laws.{LinesAreSpelled, SpelledLines, PartsAreSpelled, SpelledParts};

/// The line of a spellable instruction or terminator spells it, and the lines of a spellable block spell the block.
pub fn lines_are_spelled()
    ensures { LinesAreSpelled }
{}

/// An instruction, a terminator or a block that some tokens spell is spellable.
pub fn spelled_lines()
    ensures { SpelledLines }
{}

/// The text of a spellable function, global variable or node spells it, can be written, and defines no node but itself.
pub fn parts_are_spelled()
    ensures { PartsAreSpelled }
{}

/// The functions and global variables of a module that some tokens spell are spellable, and so are the notes of its
/// nodes.
pub fn spelled_parts()
    ensures { SpelledParts }
{}
