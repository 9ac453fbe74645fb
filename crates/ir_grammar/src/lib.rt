//! The grammar of a module's text (LLVM Language Reference, "Module Structure"), as rules over abstract tokens. The rules
//! stand in `specs/`, and the words on which a choice stands are enumerations. The functions without a body carry the laws of the grammar in their contracts.
#![tactic(auto)]

mod parts;
mod words;

ghost use Rattle.ir_grammar.specs.Sentences.{FlagsStandInOrder, ConversionsAreSpelled, LiteralsAreInRange, ArraysHaveCounts, ListsMayBeEmpty, AddressesHaveFlags, WordsAreReadPast, ParametersAreNumbered, NotesAreKept, TopIsReadPast};
ghost use Rattle.ir_grammar.specs.Laws.{OneModule, ReadIsSpelled, ModuleEnds, ExampleIsSpelled, LiteralEnds};

pub use parts::Part;
pub use words::{Bracket, Effect, Ending, Keyword, Marks, NoteKind, Opcode, Past, Place, Tail};

/// Any tokens spell one module at most.
pub fn one_module()
    ensures { OneModule }
{}

/// Reading a module up to the last token gives what the tokens spell, and none where they spell
/// nothing.
pub fn read_is_spelled()
    ensures { ReadIsSpelled }
{}

/// Nothing is left behind a module.
pub fn module_ends()
    ensures { ModuleEnds }
{}

/// A worked example: the tokens of a module of two functions, one of them with three blocks.
pub fn example_is_spelled()
    ensures { ExampleIsSpelled }
{}

/// The least and the greatest literal of `i64`, and how they are kept.
pub fn literal_ends()
    ensures { LiteralEnds }
{}

/// Flags stand in one order, and only where the operator may have them.
pub fn flags_stand_in_order()
    ensures { FlagsStandInOrder }
{}

/// Which types a conversion is spelled with.
pub fn conversions_are_spelled()
    ensures { ConversionsAreSpelled }
{}

/// A literal is in the range of its type.
pub fn literals_are_in_range()
    ensures { LiteralsAreInRange }
{}

/// At most 16 arrays stand in one another, and lists are of their elements' type.
pub fn arrays_have_counts()
    ensures { ArraysHaveCounts }
{}

/// A phi has an entry at least, and a switch may have no case.
pub fn lists_may_be_empty()
    ensures { ListsMayBeEmpty }
{}

/// The flags of `getelementptr` stand in any order.
pub fn addresses_have_flags()
    ensures { AddressesHaveFlags }
{}

/// Attributes mix and may repeat.
pub fn words_are_read_past()
    ensures { WordsAreReadPast }
{}

/// A parameter without a name takes a number.
pub fn parameters_are_numbered()
    ensures { ParametersAreNumbered }
{}

/// Which notes are kept.
pub fn notes_are_kept()
    ensures { NotesAreKept }
{}

/// What stands at the top of a module without being part of it.
pub fn top_is_read_past()
    ensures { TopIsReadPast }
{}
