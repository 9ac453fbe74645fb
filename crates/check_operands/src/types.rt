// The types that instructions and terminators ask for.
ghost use Rattle.std.specs.Prelude.{◌≡◌, ◌&&◌, drop};
ghost use Rattle.std.specs.List.{list_all};
ghost use Rattle.ir_rules.specs.Declarations as declarations;
ghost use Rattle.ir_rules.specs.Typing as spec;
ghost use Rattle.ir_tree.specs.Types.{is_integer_of, is_integer_type, is_pointer_type};

use ir_tree::{ConvOp, Instr, MemTy, Name, Operand, Term, Ty};

#[tactic(auto, unfolding(ir_rules::specs::Declarations::same_ty))]
pub(crate) fn same_ty(a: Ty, b: Ty) -> bool
    ensures { result ≡ declarations.same_ty a b }
{
    a == b
}

pub(crate) fn is_pointer(ty: Ty) -> bool
    ensures { result ≡ is_pointer_type ty }
{
    match ty {
        Ty::Ptr => true,
        Ty::I1 | Ty::I8 | Ty::I16 | Ty::I32 | Ty::I64 => false,
    }
}

fn is_integer(ty: Ty) -> bool
    ensures { result ≡ is_integer_type ty }
{
    ty.width().is_some()
}

/// Whether the types of an instruction, other than those of its operands, are what it asks for.
pub(crate) fn is_typed(instr: &Instr) -> bool
    ensures { result ≡ spec.is_typed instr.now }
{
    match instr {
        Instr::Binary { ty, .. } => is_integer(*ty),
        Instr::Convert { op, from, to, .. } => converts(*op, *from, *to),
        Instr::Gep { mem, indices, .. } => are_indices(mem, indices.as_slice()),
        Instr::Compare { .. }
        | Instr::Freeze { .. }
        | Instr::Select { .. }
        | Instr::Phi { .. }
        | Instr::Alloca { .. }
        | Instr::Load { .. }
        | Instr::Store { .. }
        | Instr::Call { .. }
        | Instr::Count { .. } => true,
    }
}

fn converts(op: ConvOp, from: Ty, to: Ty) -> bool
    ensures { result ≡ spec.converts op from to }
{
    match op {
        ConvOp::Trunc => is_narrower(to.width(), from.width()),
        ConvOp::ZExt | ConvOp::SExt => is_narrower(from.width(), to.width()),
        ConvOp::PtrToInt => is_pointer(from) && is_integer(to),
    }
}

fn is_narrower(narrow: Option<u32>, wide: Option<u32>) -> bool
    ensures { result ≡ spec.is_narrower narrow wide }
{
    match (narrow, wide) {
        (Some(v), Some(w)) => v < w,
        (None, _) | (Some(_), None) => false,
    }
}

// Indices are integers, and those behind the first enter arrays.
fn are_indices(mem: &MemTy, indices: &[(Ty, Operand)]) -> bool
    ensures { result ≡ (list_all (λ i. is_integer_type i.0) indices.now && spec.enter mem.now (drop 1 indices.now)) }
{
    are_integers(indices) && enter_behind(mem, indices)
}

fn are_integers(indices: &[(Ty, Operand)]) -> bool
    ensures { result ≡ list_all (λ i. is_integer_type i.0) indices.now }
{
    indices.iter().all(|index| is_integer(index.0))
}

fn enter_behind(mem: &MemTy, indices: &[(Ty, Operand)]) -> bool
    ensures { result ≡ spec.enter mem.now (drop 1 indices.now) }
{
    if indices.is_empty() {
        return true;
    }
    enter(mem, &indices[1..])
}

// Whether each of these indices enters an array.
fn enter(mem: &MemTy, indices: &[(Ty, Operand)]) -> bool
    ensures { result ≡ spec.enter mem.now indices.now }
{
    let mut inner = mem;
    for _index in indices {
        match inner {
            MemTy::Array { element, .. } => inner = element.get(),
            MemTy::Scalar(_) => return false,
        }
    }
    true
}

/// Whether the case values of a switch are integers of its type.
pub(crate) fn is_typed_term(term: &Term) -> bool
    ensures { result ≡ spec.is_typed_term term.now }
{
    match term {
        Term::Switch { ty, cases, .. } => is_integer(*ty) && are_cases(*ty, cases.as_slice()),
        Term::Br { .. } | Term::CondBr { .. } | Term::Ret { .. } | Term::Unreachable => true,
    }
}

fn are_cases(ty: Ty, cases: &[(u64, Name)]) -> bool
    ensures { result ≡ list_all (λ c. is_integer_of ty c.0) cases.now }
{
    cases.iter().all(|case| ty.has_integer(case.0))
}
