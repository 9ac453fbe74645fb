// Calls.
ghost use Rattle.std.specs.Prelude.{◌≡◌, ◌++◌, [], OnOk};
ghost use Rattle.ir_tree.specs.declared.types.Instr.TheVariants.{Call};
ghost use Rattle.text_pieces.specs.declared.stop.Stop.TheVariants.{CloseParen};
ghost use Rattle.text_pieces.specs.Pieces.{text_of};
ghost use Rattle.text_pieces.specs.Lists.{parted};
ghost use Rattle.canonical_text.specs.Values.{typed_pieces};
ghost use Rattle.canonical_text.specs.Notes.{line_end};
ghost use Rattle.canonical_text.specs.Instructions as spec;
ghost use Rattle.canonical_text.specs.Instructions.{instr_pieces};

use crate::node::push_line_end;
use crate::nodes::Nodes;
use crate::operation::push_named;
use crate::values::{push_operand, push_typed_list};
use crate::words::return_word;
use ir_tree::{Name, Operand, Prof, Ret, Ty};
use pgo_base::NoMemory;
use push_text::push;
use sqlite_items::Boxed;
use text_pieces::Stop;

fn push_dest(out: &mut Vec<u8>, dest: &Option<Name>) -> Result<(), NoMemory>
    ensures { OnOk result (out.new.items ≡ out.old.items ++ text_of (spec.maybe_named dest.now [])) }
{
    match dest {
        None => push(out, b"  "),
        Some(dest) => push_named(out, dest),
    }
}

// `call RT CALLEE(`
fn push_callee(out: &mut Vec<u8>, ret: Ret, callee: &Operand) -> Result<(), NoMemory>
    ensures { OnOk result (out.new.items ≡ out.old.items ++ spec.callee_text ret callee.now) }
{
    push(out, b"call ")?;
    push(out, return_word(ret))?;
    push(out, b" ")?;
    push_operand(out, Ty::Ptr, callee)?;
    push(out, b"(")
}

// `T V, ..)`, and the end of the line
fn push_arguments(
    out: &mut Vec<u8>,
    nodes: &Nodes,
    args: &[(Ty, Operand)],
    prof: &Option<Boxed<Prof>>,
) -> Result<(), NoMemory>
    ensures { OnOk result (out.new.items ≡ out.old.items ++ text_of (parted typed_pieces CloseParen args.now) ++ line_end nodes.now prof.now) }
{
    push_typed_list(out, args, Stop::CloseParen)?;
    push_line_end(out, nodes, prof)
}

#[tactic(auto, using(canonical_text::specs::Instructions::call_text))]
pub(crate) fn push_call(
    out: &mut Vec<u8>,
    nodes: &Nodes,
    dest: &Option<Name>,
    ret: Ret,
    callee: &Operand,
    args: &[(Ty, Operand)],
    prof: &Option<Boxed<Prof>>,
) -> Result<(), NoMemory>
    ensures { OnOk result (out.new.items ≡ out.old.items ++ text_of (instr_pieces nodes.now (Call dest.now ret callee.now args.now prof.now))) }
{
    push_dest(out, dest)?;
    push_callee(out, ret, callee)?;
    push_arguments(out, nodes, args, prof)
}
