// Global variables.
ghost use Rattle.std.specs.Prelude.{◌≡◌, ◌++◌, [], codes, OnOk};
ghost use Rattle.std.specs.List.{flat_map};
ghost use Rattle.ir_lex.specs.Tokens.{Global};
ghost use Rattle.text_pieces.specs.Written.{written};
ghost use Rattle.text_pieces.specs.Pieces.{text_of};
ghost use Rattle.canonical_text.specs.Values.{is_external};
ghost use Rattle.canonical_text.specs.Words as words;
ghost use Rattle.canonical_text.specs.Instructions.{flag_text};
ghost use Rattle.canonical_text.specs.Canonical as spec;

use crate::init::push_init;
use crate::memory::push_memory;
use crate::operation::push_flag;
use crate::words::variable_word;
use ir_tree::{Global1, Init, MemTy, Name};
use pgo_base::NoMemory;
use push_text::push;
use text_pieces::{Stop, push_global};

fn is_external(init: &Init) -> bool
    ensures { result ≡ is_external init.now }
{
    match init {
        Init::Int(_) | Init::Null | Init::Symbol(_) | Init::Zero | Init::Bytes(_) | Init::List(_) =>
            false,
        Init::External => true,
    }
}

fn push_external(out: &mut Vec<u8>, external: bool) -> Result<(), NoMemory>
    ensures { OnOk result (out.new.items ≡ out.old.items ++ flag_text external (codes "external")) }
{
    push_flag(out, external, b"external")
}

fn push_variable_word(out: &mut Vec<u8>, constant: bool) -> Result<(), NoMemory>
    ensures { OnOk result (out.new.items ≡ out.old.items ++ words.variable_word constant ++ codes " ") }
{
    push(out, variable_word(constant))?;
    push(out, b" ")
}

// `[external] global ` or `[external] constant `
fn push_kind(out: &mut Vec<u8>, external: bool, constant: bool) -> Result<(), NoMemory>
    ensures { OnOk result (out.new.items ≡ out.old.items ++ text_of (spec.variable_head external constant [])) }
{
    push_external(out, external)?;
    push_variable_word(out, constant)
}

#[tactic(auto, using(text_pieces::specs::Pieces::text_append))]
fn push_initial(out: &mut Vec<u8>, external: bool, mem: &MemTy, init: &Init) -> Result<(), NoMemory>
    ensures { OnOk result (out.new.items ≡ out.old.items ++ text_of (spec.initial_pieces external mem.now init.now)) }
{
    if external {
        return push_memory(out, mem, Stop::Line);
    }
    push_memory(out, mem, Stop::Space)?;
    push_init(out, mem, init, Stop::Line)
}

fn push_name(out: &mut Vec<u8>, name: &Name) -> Result<(), NoMemory>
    ensures { OnOk result (out.new.items ≡ out.old.items ++ written (Global name.now) ++ codes " = ") }
{
    push_global(out, name.bytes())?;
    push(out, b" = ")
}

#[tactic(auto, using(canonical_text::specs::Canonical::variable_text))]
fn push_variable(out: &mut Vec<u8>, global: &Global1) -> Result<(), NoMemory>
    ensures { OnOk result (out.new.items ≡ out.old.items ++ text_of (spec.variable_pieces global.now)) }
{
    let external = is_external(&global.init);
    push_name(out, &global.name)?;
    push_kind(out, external, global.constant)?;
    push_initial(out, external, &global.mem, &global.init)
}

/// Appends the lines of global variables.
pub(crate) fn push_variables(out: &mut Vec<u8>, globals: &[Global1]) -> Result<(), NoMemory>
    ensures { OnOk result (out.new.items ≡ out.old.items ++ flat_map (λ g. text_of (spec.variable_pieces g)) globals.now) }
{
    for global in globals {
        push_variable(out, global)?;
    }
    Ok(())
}
