// What the text of a lowered module spells, the clauses of a function that does nothing.
ghost use Rattle.lower_spelled.specs.LowerSpelled.{CanonicalSpellsLowered, LoweredPartsAreSpellable, SpellsLoweredAlone};

use lowered_rules::{asks_are_small, units_are_told};
use printed_spells::{canonical_spells, printed_once, spelled_is_spellable};

/// Where some text spells a well-formed module that counts and that lowering doesn't refuse, the canonical text of its lowered
/// form spells that form and no other module: what is read from it is the lowered module.
pub fn lower_is_spelled()
    ensures spellable { LoweredPartsAreSpellable }
    ensures spelled { CanonicalSpellsLowered }
    ensures alone { SpellsLoweredAlone }
{
    asks_are_small();
    units_are_told();
    spelled_is_spellable();
    canonical_spells();
    printed_once();
}
