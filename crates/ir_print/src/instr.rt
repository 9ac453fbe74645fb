// Instructions on memory, and any instruction.
ghost use Rattle.std.specs.Prelude.{◌≡◌, ◌++◌, ◌∷◌, [], codes, decimal, OnOk};
ghost use Rattle.ir_tree.specs.declared.types.Instr.TheVariants.{Alloca, Load, Store, Gep, Count};
ghost use Rattle.ir_tree.specs.declared.types.Ty.TheVariants.{I64, Ptr};
ghost use Rattle.ir_lex.specs.Tokens.{Global};
ghost use Rattle.text_pieces.specs.Written.{written};
ghost use Rattle.text_pieces.specs.Pieces.{text_of};
ghost use Rattle.std.specs.List.{flat_map};
ghost use Rattle.canonical_text.specs.Values.{literal_token, operand_token, spaced, typed};
ghost use Rattle.text_pieces.specs.declared.stop.Stop.TheVariants.{Line};
ghost use Rattle.canonical_text.specs.Words as words;
ghost use Rattle.canonical_text.specs.Instructions as spec;
ghost use Rattle.canonical_text.specs.Instructions.{instr_pieces};

use crate::call::push_call;
use crate::memory::push_memory;
use crate::nodes::Nodes;
use crate::operation::{
    push_binary, push_compare, push_convert, push_flag, push_freeze, push_named, push_phi,
    push_select,
};
use crate::values::{push_literal, push_typed, push_typed_list};
use crate::words::type_word;
use ir_tree::{Instr, MemTy, Name, Operand, Ty};
use pgo_base::NoMemory;
use push_text::{push, push_number};
use text_pieces::{Stop, push_global};

fn push_alloca(out: &mut Vec<u8>, dest: &Name, mem: &MemTy) -> Result<(), NoMemory>
    ensures { OnOk result (out.new.items ≡ out.old.items ++ text_of (instr_pieces [] (Alloca dest.now mem.now))) }
{
    push_named(out, dest)?;
    push(out, b"alloca ")?;
    push_memory(out, mem, Stop::Line)
}

// `ptr V`, and the end of the line
fn push_from(out: &mut Vec<u8>, address: &Operand) -> Result<(), NoMemory>
    ensures { OnOk result (out.new.items ≡ out.old.items ++ text_of (typed Ptr address.now Line [])) }
{
    push_typed(out, Ty::Ptr, address)?;
    push(out, b"\n")
}

fn push_load(out: &mut Vec<u8>, dest: &Name, ty: Ty, address: &Operand) -> Result<(), NoMemory>
    ensures { OnOk result (out.new.items ≡ out.old.items ++ text_of (instr_pieces [] (Load dest.now ty address.now))) }
{
    push_named(out, dest)?;
    push(out, b"load ")?;
    push(out, type_word(ty))?;
    push(out, b", ")?;
    push_from(out, address)
}

fn push_store(out: &mut Vec<u8>, ty: Ty, value: &Operand, address: &Operand) -> Result<(), NoMemory>
    ensures { OnOk result (out.new.items ≡ out.old.items ++ text_of (instr_pieces [] (Store ty value.now address.now))) }
{
    push(out, b"  store ")?;
    push_typed(out, ty, value)?;
    push(out, b", ")?;
    push_typed(out, Ty::Ptr, address)?;
    push(out, b"\n")
}

// `ptr V, T V, ..`
fn push_address(
    out: &mut Vec<u8>,
    address: &Operand,
    indices: &[(Ty, Operand)],
) -> Result<(), NoMemory>
    ensures { OnOk result (out.new.items ≡ out.old.items ++ text_of (spec.address_pieces address.now indices.now)) }
{
    push_typed(out, Ty::Ptr, address)?;
    push(out, b", ")?;
    push_typed_list(out, indices, Stop::Line)
}

// `MT, ptr V, T V, ..`
#[tactic(auto, using(text_pieces::specs::Pieces::text_append))]
fn push_indexed(
    out: &mut Vec<u8>,
    mem: &MemTy,
    address: &Operand,
    indices: &[(Ty, Operand)],
) -> Result<(), NoMemory>
    ensures { OnOk result (out.new.items ≡ out.old.items ++ text_of (spec.gep_pieces mem.now address.now indices.now)) }
{
    push_memory(out, mem, Stop::Comma)?;
    push_address(out, address, indices)
}

fn push_gep_head(out: &mut Vec<u8>, dest: &Name, inbounds: bool) -> Result<(), NoMemory>
    ensures { OnOk result (out.new.items ≡ out.old.items ++ text_of (spec.named dest.now (spaced (codes "getelementptr") [])) ++ spec.flag_text inbounds (codes "inbounds")) }
{
    push_named(out, dest)?;
    push(out, b"getelementptr ")?;
    push_flag(out, inbounds, b"inbounds")
}

#[tactic(auto, using(canonical_text::specs::Instructions::gep_text))]
fn push_gep(
    out: &mut Vec<u8>,
    dest: &Name,
    inbounds: bool,
    mem: &MemTy,
    address: &Operand,
    indices: &[(Ty, Operand)],
) -> Result<(), NoMemory>
    ensures { OnOk result (out.new.items ≡ out.old.items ++ text_of (instr_pieces [] (Gep dest.now inbounds mem.now address.now indices.now))) }
{
    push_gep_head(out, dest, inbounds)?;
    push_indexed(out, mem, address, indices)
}

// `([N x i64], ptr @s, i64 0, i64 I)`
fn push_counter(out: &mut Vec<u8>, symbol: &Name, size: u64, index: u64) -> Result<(), NoMemory>
    ensures { OnOk result (out.new.items ≡ out.old.items ++ codes "([" ++ decimal size ++ codes " x i64], ptr " ++ written (Global symbol.now) ++ codes ", i64 0, i64 " ++ written (literal_token I64 index) ++ codes ")") }
{
    push(out, b"([")?;
    push_number(out, size)?;
    push(out, b" x i64], ptr ")?;
    push_global(out, symbol.bytes())?;
    push(out, b", i64 0, i64 ")?;
    push_literal(out, Ty::I64, index)?;
    push(out, b")")
}

// `i64 V monotonic`, and the end of the line
fn push_step(out: &mut Vec<u8>, step: &Operand) -> Result<(), NoMemory>
    ensures { OnOk result (out.new.items ≡ out.old.items ++ words.type_word I64 ++ 32 ∷ written (operand_token I64 step.now) ++ codes " monotonic\n") }
{
    push_typed(out, Ty::I64, step)?;
    push(out, b" monotonic\n")
}

fn push_count(
    out: &mut Vec<u8>,
    symbol: &Name,
    size: u64,
    index: u64,
    step: &Operand,
) -> Result<(), NoMemory>
    ensures { OnOk result (out.new.items ≡ out.old.items ++ text_of (instr_pieces [] (Count symbol.now size index step.now))) }
{
    push(out, b"  atomicrmw add ptr getelementptr inbounds ")?;
    push_counter(out, symbol, size, index)?;
    push(out, b", ")?;
    push_step(out, step)
}

/// Appends the line of an instruction.
pub(crate) fn push_instr(out: &mut Vec<u8>, nodes: &Nodes, instr: &Instr) -> Result<(), NoMemory>
    ensures { OnOk result (out.new.items ≡ out.old.items ++ text_of (instr_pieces nodes.now instr.now)) }
{
    match instr {
        Instr::Binary {
            dest,
            op,
            flags,
            ty,
            left,
            right,
        } => push_binary(out, dest, *op, *flags, *ty, left, right),
        Instr::Compare {
            dest,
            pred,
            ty,
            left,
            right,
        } => push_compare(out, dest, *pred, *ty, left, right),
        Instr::Convert {
            dest,
            op,
            flags,
            from,
            value,
            to,
        } => push_convert(out, dest, *op, *flags, *from, value, *to),
        Instr::Freeze { dest, ty, value } => push_freeze(out, dest, *ty, value),
        Instr::Select {
            dest,
            cond,
            ty,
            yes,
            no,
            prof,
        } => push_select(out, nodes, dest, cond, *ty, yes, no, prof),
        Instr::Phi { dest, ty, entries } => push_phi(out, dest, *ty, entries.as_slice()),
        Instr::Alloca { dest, mem } => push_alloca(out, dest, mem),
        Instr::Load { dest, ty, address } => push_load(out, dest, *ty, address),
        Instr::Store { ty, value, address } => push_store(out, *ty, value, address),
        Instr::Gep {
            dest,
            inbounds,
            mem,
            address,
            indices,
        } => push_gep(out, dest, *inbounds, mem, address, indices.as_slice()),
        Instr::Call {
            dest,
            ret,
            callee,
            args,
            prof,
        } => push_call(out, nodes, dest, *ret, callee, args.as_slice(), prof),
        Instr::Count {
            symbol,
            size,
            index,
            step,
        } => push_count(out, symbol, *size, *index, step),
    }
}

/// Appends the lines of instructions.
pub(crate) fn push_instrs(
    out: &mut Vec<u8>,
    nodes: &Nodes,
    instrs: &[Instr],
) -> Result<(), NoMemory>
    ensures { OnOk result (out.new.items ≡ out.old.items ++ flat_map (λ i. text_of (instr_pieces nodes.now i)) instrs.now) }
{
    for instr in instrs {
        push_instr(out, nodes, instr)?;
    }
    Ok(())
}
