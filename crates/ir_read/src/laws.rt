//! What holds of the texts of modules.

ghost use Rattle.ir_read.specs.Spelled.{OneModule};

/// A law without code: a text spells one module at most.
pub fn one_module()
    ensures { OneModule }
{
    ir_lex::tokens_are_unique();
    ir_grammar::one_module();
}
