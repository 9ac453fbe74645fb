// The words of operators, predicates, conversions and types.
ghost use Rattle.std.specs.Prelude.{◌≡◌};
ghost use Rattle.canonical_text.specs.Words as spec;

use ir_tree::{BinOp, ConvOp, Pred, Ret, Ty};

pub(crate) fn type_word(ty: Ty) -> &'static [u8]
    ensures { result.now ≡ spec.type_word ty }
{
    match ty {
        Ty::I1 => b"i1",
        Ty::I8 => b"i8",
        Ty::I16 => b"i16",
        Ty::I32 => b"i32",
        Ty::I64 => b"i64",
        Ty::Ptr => b"ptr",
    }
}

pub(crate) fn return_word(ret: Ret) -> &'static [u8]
    ensures { result.now ≡ spec.return_word ret }
{
    match ret {
        Ret::Void => b"void",
        Ret::Value(ty) => type_word(ty),
    }
}

pub(crate) fn operator_word(op: BinOp) -> &'static [u8]
    ensures { result.now ≡ spec.operator_word op }
{
    match op {
        BinOp::Add => b"add",
        BinOp::Sub => b"sub",
        BinOp::Mul => b"mul",
        BinOp::UDiv => b"udiv",
        BinOp::SDiv => b"sdiv",
        BinOp::URem => b"urem",
        BinOp::SRem => b"srem",
        BinOp::Shl => b"shl",
        BinOp::LShr => b"lshr",
        BinOp::AShr => b"ashr",
        BinOp::And => b"and",
        BinOp::Or => b"or",
        BinOp::Xor => b"xor",
    }
}

pub(crate) fn predicate_word(pred: Pred) -> &'static [u8]
    ensures { result.now ≡ spec.predicate_word pred }
{
    match pred {
        Pred::Eq => b"eq",
        Pred::Ne => b"ne",
        Pred::Ugt => b"ugt",
        Pred::Uge => b"uge",
        Pred::Ult => b"ult",
        Pred::Ule => b"ule",
        Pred::Sgt => b"sgt",
        Pred::Sge => b"sge",
        Pred::Slt => b"slt",
        Pred::Sle => b"sle",
    }
}

pub(crate) fn conversion_word(op: ConvOp) -> &'static [u8]
    ensures { result.now ≡ spec.conversion_word op }
{
    match op {
        ConvOp::Trunc => b"trunc",
        ConvOp::ZExt => b"zext",
        ConvOp::SExt => b"sext",
        ConvOp::PtrToInt => b"ptrtoint",
    }
}

pub(crate) fn variable_word(constant: bool) -> &'static [u8]
    ensures { result.now ≡ spec.variable_word constant }
{
    if constant { b"constant" } else { b"global" }
}
