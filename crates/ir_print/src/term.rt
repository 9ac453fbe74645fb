// Terminators.
ghost use Rattle.std.specs.Prelude.{◌≡◌, ◌++◌, ◌∷◌, [], codes, OnOk};
ghost use Rattle.std.specs.List.{flat_map};
ghost use Rattle.ir_tree.specs.declared.types.Term.TheVariants as terms;
ghost use Rattle.text_pieces.specs.Pieces.{text_of};
ghost use Rattle.canonical_text.specs.Notes.{line_end};
ghost use Rattle.canonical_text.specs.Instructions as spec;
ghost use Rattle.canonical_text.specs.Instructions.{case_pieces, term_pieces};

use crate::node::push_line_end;
use crate::nodes::Nodes;
use crate::values::{push_literal, push_operand, push_typed};
use crate::words::type_word;
use ir_tree::{Name, Operand, Prof, Term, Ty};
use pgo_base::NoMemory;
use push_text::push;
use sqlite_items::Boxed;
use text_pieces::push_local;

fn push_br(out: &mut Vec<u8>, to: &Name) -> Result<(), NoMemory>
    ensures { OnOk result (out.new.items ≡ out.old.items ++ text_of (term_pieces [] (terms.Br to.now))) }
{
    push(out, b"  br label ")?;
    push_local(out, to.bytes())?;
    push(out, b"\n")
}

// `label %b, label %b`, and the end of the line
#[tactic(auto, unfolding(canonical_text::specs::Notes::line_end))]
fn push_ways(
    out: &mut Vec<u8>,
    nodes: &Nodes,
    first: &Name,
    second: &Name,
    prof: &Option<Boxed<Prof>>,
) -> Result<(), NoMemory>
    ensures { OnOk result (out.new.items ≡ out.old.items ++ text_of (spec.ways_pieces nodes.now first.now second.now prof.now)) }
{
    push(out, b"label ")?;
    push_local(out, first.bytes())?;
    push(out, b", label ")?;
    push_local(out, second.bytes())?;
    push_line_end(out, nodes, prof)
}

fn push_branch(
    out: &mut Vec<u8>,
    nodes: &Nodes,
    cond: &Operand,
    first: &Name,
    second: &Name,
    prof: &Option<Boxed<Prof>>,
) -> Result<(), NoMemory>
    ensures { OnOk result (out.new.items ≡ out.old.items ++ text_of (term_pieces nodes.now (terms.CondBr cond.now first.now second.now prof.now))) }
{
    push(out, b"  br i1 ")?;
    push_operand(out, Ty::I1, cond)?;
    push(out, b", ")?;
    push_ways(out, nodes, first, second, prof)
}

fn push_case(out: &mut Vec<u8>, ty: Ty, case: &(u64, Name)) -> Result<(), NoMemory>
    ensures { OnOk result (out.new.items ≡ out.old.items ++ text_of (case_pieces ty case.now)) }
{
    push(out, b"    ")?;
    push(out, type_word(ty))?;
    push(out, b" ")?;
    push_literal(out, ty, case.0)?;
    push(out, b", label ")?;
    push_local(out, case.1.bytes())?;
    push(out, b"\n")
}

fn push_case_lines(out: &mut Vec<u8>, ty: Ty, cases: &[(u64, Name)]) -> Result<(), NoMemory>
    ensures { OnOk result (out.new.items ≡ out.old.items ++ flat_map (λ c. text_of (case_pieces ty c)) cases.now) }
{
    for case in cases {
        push_case(out, ty, case)?;
    }
    Ok(())
}

// the cases, each in a line, the bracket behind them, and the end of the line
#[tactic(auto, using(canonical_text::specs::Instructions::cases_text))]
fn push_cases(
    out: &mut Vec<u8>,
    nodes: &Nodes,
    ty: Ty,
    cases: &[(u64, Name)],
    prof: &Option<Boxed<Prof>>,
) -> Result<(), NoMemory>
    ensures { OnOk result (out.new.items ≡ out.old.items ++ text_of (spec.cases_pieces nodes.now ty cases.now prof.now)) }
{
    push_case_lines(out, ty, cases)?;
    push(out, b"  ]")?;
    push_line_end(out, nodes, prof)
}

fn push_switch(
    out: &mut Vec<u8>,
    nodes: &Nodes,
    ty: Ty,
    value: &Operand,
    default: &Name,
    cases: &[(u64, Name)],
    prof: &Option<Boxed<Prof>>,
) -> Result<(), NoMemory>
    ensures { OnOk result (out.new.items ≡ out.old.items ++ text_of (term_pieces nodes.now (terms.Switch ty value.now default.now cases.now prof.now))) }
{
    push(out, b"  switch ")?;
    push_typed(out, ty, value)?;
    push(out, b", label ")?;
    push_local(out, default.bytes())?;
    push(out, b" [\n")?;
    push_cases(out, nodes, ty, cases, prof)
}

fn push_ret(out: &mut Vec<u8>, value: &Option<(Ty, Operand)>) -> Result<(), NoMemory>
    ensures { OnOk result (out.new.items ≡ out.old.items ++ text_of (term_pieces [] (terms.Ret value.now))) }
{
    match value {
        None => push(out, b"  ret void\n"),
        Some(typed) => {
            push(out, b"  ret ")?;
            push_typed(out, typed.0, &typed.1)?;
            push(out, b"\n")
        }
    }
}

/// Appends the lines of a terminator.
pub(crate) fn push_term(out: &mut Vec<u8>, nodes: &Nodes, term: &Term) -> Result<(), NoMemory>
    ensures { OnOk result (out.new.items ≡ out.old.items ++ text_of (term_pieces nodes.now term.now)) }
{
    match term {
        Term::Br { to } => push_br(out, to),
        Term::CondBr {
            cond,
            yes,
            no,
            prof,
        } => push_branch(out, nodes, cond, yes, no, prof),
        Term::Switch {
            ty,
            value,
            default,
            cases,
            prof,
        } => push_switch(out, nodes, *ty, value, default, cases.as_slice(), prof),
        Term::Ret { value } => push_ret(out, value),
        Term::Unreachable => push(out, b"  unreachable\n"),
    }
}
