// What the text of the module that counts spells, the clauses of a function that does nothing.
ghost use Rattle.gen_spelled.specs.GenSpelled.{CanonicalSpellsCounted, PartsAreSpellable, SpellsCountedAlone};

use counted_accepted::gen_plans_fit;
use printed_spells::{canonical_spells, printed_once, spelled_is_spellable};

/// Where some text spells an accepted plain module, the canonical text of the module that counts it spells that module and no
/// other, in both modes: what is read from it is the module that counts.
pub fn gen_is_spelled()
    ensures spellable { PartsAreSpellable }
    ensures spelled { CanonicalSpellsCounted }
    ensures alone { SpellsCountedAlone }
{
    gen_plans_fit();
    spelled_is_spellable();
    canonical_spells();
    printed_once();
}
