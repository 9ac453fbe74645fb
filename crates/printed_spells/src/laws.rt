//! The laws of printing, each carried by a function without code of its own.

ghost use Rattle.printed_spells.specs.Laws.{CanonicalSpells, NamesAreRead, PrintedOnce, PrintedSpells, SpelledIsSpellable};

/// The names of the tokens of a text are such as are spelled.
pub fn names_are_read()
    ensures { NamesAreRead }
{}

/// The canonical text of a module whose parts are spellable spells the module.
pub fn canonical_spells()
    ensures { CanonicalSpells }
{
    spellable::parts_are_spelled();
    text_cuts::pieces_are_cut();
    ir_lex::tokens_are_unique();
}

/// Each part of a module that some text spells is spellable.
pub fn spelled_is_spellable()
    ensures { SpelledIsSpellable }
{
    spellable::spelled_parts();
}

/// The canonical text of a module that some text spells spells it too.
pub fn printed_spells()
    ensures { PrintedSpells }
{
    canonical_spells();
    spelled_is_spellable();
}

/// The canonical text of a module that some text spells spells no other module: what is read from it is the module again.
pub fn printed_once()
    ensures { PrintedOnce }
{
    printed_spells();
    ir_lex::tokens_are_unique();
    ir_grammar::one_module();
}
