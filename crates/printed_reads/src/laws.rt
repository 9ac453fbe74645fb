//! The law of reading what was printed, carried by a function without code of its own.

ghost use Rattle.printed_reads.specs.Laws.{PrintedIsRead};

/// The canonical text of a module that some text spells is read as this module, and refused for no syntax.
pub fn printed_is_read()
    ensures { PrintedIsRead }
{
    printed_spells::printed_spells();
    ir_read::one_module();
}
