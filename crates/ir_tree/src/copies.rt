// Copies of a module's parts: each allocating type has `copy`, one pass over what it holds.
ghost use Rattle.std.specs.Prelude.{◌≡◌, IfOk};
ghost use Rattle.ir_tree.specs.declared.types.Instr.TheVariants.{Binary, Compare, Convert, Freeze, Select, Phi, Alloca, Load, Store, Gep, Call, Count};
ghost use Rattle.ir_tree.specs.declared.types.Term.TheVariants as term;

use crate::name::Name;
use crate::types::{
    BinOp, Block, ConvOp, Flags, Function, Global1, Init, Instr, MemTy, Module, Operand, Pred,
    Prof, Ret, Term, Ty,
};
use pgo_base::NoMemory;
use seq::Seq;
use sqlite_items::Boxed;
use std::alloc::Global;

impl MemTy {
    /// An equal type.
    pub fn copy(&self, alloc: Global) -> Result<MemTy, NoMemory>
        ensures { IfOk result (λ m. m ≡ self.now) }
    {
        match self {
            MemTy::Scalar(ty) => Ok(MemTy::Scalar(*ty)),
            MemTy::Array { count, element } => {
                let element = element.get().copy(alloc)?;
                Ok(MemTy::Array {
                    count: *count,
                    element: Boxed::new(alloc, element)?,
                })
            }
        }
    }
}

impl Operand {
    /// An equal operand.
    pub fn copy(&self, alloc: Global) -> Result<Operand, NoMemory>
        ensures { IfOk result (λ v. v ≡ self.now) }
    {
        match self {
            Operand::Int(value) => Ok(Operand::Int(*value)),
            Operand::Null => Ok(Operand::Null),
            Operand::Local(name) => Ok(Operand::Local(name.copy(alloc)?)),
            Operand::Global(name) => Ok(Operand::Global(name.copy(alloc)?)),
        }
    }
}

impl Init {
    /// An equal initialiser.
    pub fn copy(&self, alloc: Global) -> Result<Init, NoMemory>
        ensures { IfOk result (λ i. i ≡ self.now) }
    {
        match self {
            Init::Int(value) => Ok(Init::Int(*value)),
            Init::Null => Ok(Init::Null),
            Init::Symbol(name) => Ok(Init::Symbol(name.copy(alloc)?)),
            Init::Zero => Ok(Init::Zero),
            Init::Bytes(bytes) => Ok(Init::Bytes(Seq::of(Vec::from_slice(
                alloc,
                bytes.as_slice(),
            )?))),
            Init::List(inits) => {
                let items = inits.as_slice();
                let mut copies = Vec::with_capacity(alloc, items.len())?;
                for item in items {
                    copies.push(item.copy(alloc)?)?;
                }
                Ok(Init::List(Seq::of(copies)))
            }
            Init::External => Ok(Init::External),
        }
    }
}

impl Prof {
    /// An equal note.
    pub fn copy(&self, alloc: Global) -> Result<Prof, NoMemory>
        ensures { IfOk result (λ p. p ≡ self.now) }
    {
        match self {
            Prof::Entry(count) => Ok(Prof::Entry(*count)),
            Prof::Weights(weights) => {
                let weights = Vec::from_slice(alloc, weights.as_slice())?;
                Ok(Prof::Weights(Seq::of(weights)))
            }
            Prof::Targets { total, list } => {
                let list = Vec::from_slice(alloc, list.as_slice())?;
                Ok(Prof::Targets {
                    total: *total,
                    list: Seq::of(list),
                })
            }
        }
    }
}

impl Global1 {
    /// An equal global variable.
    pub fn copy(&self, alloc: Global) -> Result<Global1, NoMemory>
        ensures { IfOk result (λ g. g ≡ self.now) }
    {
        Ok(Global1 {
            name: self.name.copy(alloc)?,
            constant: self.constant,
            mem: self.mem.copy(alloc)?,
            init: self.init.copy(alloc)?,
        })
    }
}

impl Instr {
    /// An equal instruction.
    pub fn copy(&self, alloc: Global) -> Result<Instr, NoMemory>
        ensures { IfOk result (λ i. i ≡ self.now) }
    {
        match self {
            Instr::Binary {
                dest,
                op,
                flags,
                ty,
                left,
                right,
            } => copy_binary(alloc, dest, *op, *flags, *ty, left, right),
            Instr::Compare {
                dest,
                pred,
                ty,
                left,
                right,
            } => copy_compare(alloc, dest, *pred, *ty, left, right),
            Instr::Convert {
                dest,
                op,
                flags,
                from,
                value,
                to,
            } => copy_convert(alloc, dest, *op, *flags, *from, value, *to),
            Instr::Freeze { dest, ty, value } => copy_freeze(alloc, dest, *ty, value),
            Instr::Select {
                dest,
                cond,
                ty,
                yes,
                no,
                prof,
            } => copy_select(alloc, dest, cond, *ty, yes, no, prof),
            Instr::Phi { dest, ty, entries } => copy_phi(alloc, dest, *ty, entries),
            Instr::Alloca { dest, mem } => copy_alloca(alloc, dest, mem),
            Instr::Load { dest, ty, address } => copy_load(alloc, dest, *ty, address),
            Instr::Store { ty, value, address } => copy_store(alloc, *ty, value, address),
            Instr::Gep {
                dest,
                inbounds,
                mem,
                address,
                indices,
            } => copy_gep(alloc, dest, *inbounds, mem, address, indices),
            Instr::Call {
                dest,
                ret,
                callee,
                args,
                prof,
            } => copy_call(alloc, dest, *ret, callee, args, prof),
            Instr::Count {
                symbol,
                size,
                index,
                step,
            } => copy_count(alloc, symbol, *size, *index, step),
        }
    }
}

impl Term {
    /// An equal terminator.
    pub fn copy(&self, alloc: Global) -> Result<Term, NoMemory>
        ensures { IfOk result (λ t. t ≡ self.now) }
    {
        match self {
            Term::Br { to } => Ok(Term::Br {
                to: to.copy(alloc)?,
            }),
            Term::CondBr {
                cond,
                yes,
                no,
                prof,
            } => copy_cond_br(alloc, cond, yes, no, prof),
            Term::Switch {
                ty,
                value,
                default,
                cases,
                prof,
            } => copy_switch(alloc, *ty, value, default, cases, prof),
            Term::Ret { value } => copy_ret(alloc, value),
            Term::Unreachable => Ok(Term::Unreachable),
        }
    }
}

impl Block {
    /// An equal block.
    pub fn copy(&self, alloc: Global) -> Result<Block, NoMemory>
        ensures { IfOk result (λ b. b ≡ self.now) }
    {
        Ok(Block {
            label: self.label.copy(alloc)?,
            instrs: copy_instrs(alloc, &self.instrs)?,
            term: self.term.copy(alloc)?,
        })
    }
}

impl Function {
    /// An equal function.
    pub fn copy(&self, alloc: Global) -> Result<Function, NoMemory>
        ensures { IfOk result (λ f. f ≡ self.now) }
    {
        Ok(Function {
            name: self.name.copy(alloc)?,
            ret: self.ret,
            params: copy_params(alloc, &self.params)?,
            blocks: copy_blocks(alloc, &self.blocks)?,
            prof: copy_prof(alloc, &self.prof)?,
        })
    }
}

impl Module {
    /// An equal module.
    pub fn copy(&self, alloc: Global) -> Result<Module, NoMemory>
        ensures { IfOk result (λ m. m ≡ self.now) }
    {
        Ok(Module {
            globals: copy_globals(alloc, &self.globals)?,
            functions: copy_functions(alloc, &self.functions)?,
        })
    }
}

fn copy_binary(
    alloc: Global,
    dest: &Name,
    op: BinOp,
    flags: Flags,
    ty: Ty,
    left: &Operand,
    right: &Operand,
) -> Result<Instr, NoMemory>
    ensures { IfOk result (λ i. i ≡ Binary dest.now op flags ty left.now right.now) }
{
    Ok(Instr::Binary {
        dest: dest.copy(alloc)?,
        op,
        flags,
        ty,
        left: left.copy(alloc)?,
        right: right.copy(alloc)?,
    })
}

fn copy_compare(
    alloc: Global,
    dest: &Name,
    pred: Pred,
    ty: Ty,
    left: &Operand,
    right: &Operand,
) -> Result<Instr, NoMemory>
    ensures { IfOk result (λ i. i ≡ Compare dest.now pred ty left.now right.now) }
{
    Ok(Instr::Compare {
        dest: dest.copy(alloc)?,
        pred,
        ty,
        left: left.copy(alloc)?,
        right: right.copy(alloc)?,
    })
}

fn copy_convert(
    alloc: Global,
    dest: &Name,
    op: ConvOp,
    flags: Flags,
    from: Ty,
    value: &Operand,
    to: Ty,
) -> Result<Instr, NoMemory>
    ensures { IfOk result (λ i. i ≡ Convert dest.now op flags from value.now to) }
{
    Ok(Instr::Convert {
        dest: dest.copy(alloc)?,
        op,
        flags,
        from,
        value: value.copy(alloc)?,
        to,
    })
}

fn copy_freeze(alloc: Global, dest: &Name, ty: Ty, value: &Operand) -> Result<Instr, NoMemory>
    ensures { IfOk result (λ i. i ≡ Freeze dest.now ty value.now) }
{
    Ok(Instr::Freeze {
        dest: dest.copy(alloc)?,
        ty,
        value: value.copy(alloc)?,
    })
}

fn copy_select(
    alloc: Global,
    dest: &Name,
    cond: &Operand,
    ty: Ty,
    yes: &Operand,
    no: &Operand,
    prof: &Option<Boxed<Prof>>,
) -> Result<Instr, NoMemory>
    ensures { IfOk result (λ i. i ≡ Select dest.now cond.now ty «yes».now «no».now prof.now) }
{
    Ok(Instr::Select {
        dest: dest.copy(alloc)?,
        cond: cond.copy(alloc)?,
        ty,
        yes: yes.copy(alloc)?,
        no: no.copy(alloc)?,
        prof: copy_prof(alloc, prof)?,
    })
}

fn copy_phi(
    alloc: Global,
    dest: &Name,
    ty: Ty,
    entries: &Seq<(Operand, Name)>,
) -> Result<Instr, NoMemory>
    ensures { IfOk result (λ i. i ≡ Phi dest.now ty entries.now) }
{
    Ok(Instr::Phi {
        dest: dest.copy(alloc)?,
        ty,
        entries: copy_entries(alloc, entries)?,
    })
}

fn copy_alloca(alloc: Global, dest: &Name, mem: &MemTy) -> Result<Instr, NoMemory>
    ensures { IfOk result (λ i. i ≡ Alloca dest.now mem.now) }
{
    Ok(Instr::Alloca {
        dest: dest.copy(alloc)?,
        mem: mem.copy(alloc)?,
    })
}

fn copy_load(alloc: Global, dest: &Name, ty: Ty, address: &Operand) -> Result<Instr, NoMemory>
    ensures { IfOk result (λ i. i ≡ Load dest.now ty address.now) }
{
    Ok(Instr::Load {
        dest: dest.copy(alloc)?,
        ty,
        address: address.copy(alloc)?,
    })
}

fn copy_store(alloc: Global, ty: Ty, value: &Operand, address: &Operand) -> Result<Instr, NoMemory>
    ensures { IfOk result (λ i. i ≡ Store ty value.now address.now) }
{
    Ok(Instr::Store {
        ty,
        value: value.copy(alloc)?,
        address: address.copy(alloc)?,
    })
}

fn copy_gep(
    alloc: Global,
    dest: &Name,
    inbounds: bool,
    mem: &MemTy,
    address: &Operand,
    indices: &Seq<(Ty, Operand)>,
) -> Result<Instr, NoMemory>
    ensures { IfOk result (λ i. i ≡ Gep dest.now inbounds mem.now address.now indices.now) }
{
    Ok(Instr::Gep {
        dest: dest.copy(alloc)?,
        inbounds,
        mem: mem.copy(alloc)?,
        address: address.copy(alloc)?,
        indices: copy_typed(alloc, indices)?,
    })
}

fn copy_call(
    alloc: Global,
    dest: &Option<Name>,
    ret: Ret,
    callee: &Operand,
    args: &Seq<(Ty, Operand)>,
    prof: &Option<Boxed<Prof>>,
) -> Result<Instr, NoMemory>
    ensures { IfOk result (λ i. i ≡ Call dest.now ret callee.now args.now prof.now) }
{
    Ok(Instr::Call {
        dest: copy_dest(alloc, dest)?,
        ret,
        callee: callee.copy(alloc)?,
        args: copy_typed(alloc, args)?,
        prof: copy_prof(alloc, prof)?,
    })
}

fn copy_count(
    alloc: Global,
    symbol: &Name,
    size: u64,
    index: u64,
    step: &Operand,
) -> Result<Instr, NoMemory>
    ensures { IfOk result (λ i. i ≡ Count symbol.now size index step.now) }
{
    Ok(Instr::Count {
        symbol: symbol.copy(alloc)?,
        size,
        index,
        step: step.copy(alloc)?,
    })
}

fn copy_cond_br(
    alloc: Global,
    cond: &Operand,
    yes: &Name,
    no: &Name,
    prof: &Option<Boxed<Prof>>,
) -> Result<Term, NoMemory>
    ensures { IfOk result (λ t. t ≡ term.CondBr cond.now «yes».now «no».now prof.now) }
{
    Ok(Term::CondBr {
        cond: cond.copy(alloc)?,
        yes: yes.copy(alloc)?,
        no: no.copy(alloc)?,
        prof: copy_prof(alloc, prof)?,
    })
}

fn copy_switch(
    alloc: Global,
    ty: Ty,
    value: &Operand,
    default: &Name,
    cases: &Seq<(u64, Name)>,
    prof: &Option<Boxed<Prof>>,
) -> Result<Term, NoMemory>
    ensures { IfOk result (λ t. t ≡ term.Switch ty value.now default.now cases.now prof.now) }
{
    Ok(Term::Switch {
        ty,
        value: value.copy(alloc)?,
        default: default.copy(alloc)?,
        cases: copy_cases(alloc, cases)?,
        prof: copy_prof(alloc, prof)?,
    })
}

fn copy_ret(alloc: Global, value: &Option<(Ty, Operand)>) -> Result<Term, NoMemory>
    ensures { IfOk result (λ t. t ≡ term.Ret value.now) }
{
    match value {
        Some((ty, operand)) => Ok(Term::Ret {
            value: Some((*ty, operand.copy(alloc)?)),
        }),
        None => Ok(Term::Ret { value: None }),
    }
}

fn copy_dest(alloc: Global, dest: &Option<Name>) -> Result<Option<Name>, NoMemory>
    ensures { IfOk result (λ d. d ≡ dest.now) }
{
    match dest {
        Some(name) => Ok(Some(name.copy(alloc)?)),
        None => Ok(None),
    }
}

fn copy_prof(alloc: Global, prof: &Option<Boxed<Prof>>) -> Result<Option<Boxed<Prof>>, NoMemory>
    ensures { IfOk result (λ p. p ≡ prof.now) }
{
    match prof {
        Some(prof) => Ok(Some(Boxed::new(alloc, prof.get().copy(alloc)?)?)),
        None => Ok(None),
    }
}

fn copy_entries(
    alloc: Global,
    entries: &Seq<(Operand, Name)>,
) -> Result<Seq<(Operand, Name)>, NoMemory>
    ensures { IfOk result (λ e. e ≡ entries.now) }
{
    let items = entries.as_slice();
    let mut copies = Vec::with_capacity(alloc, items.len())?;
    for item in items {
        copies.push((item.0.copy(alloc)?, item.1.copy(alloc)?))?;
    }
    Ok(Seq::of(copies))
}

fn copy_typed(alloc: Global, operands: &Seq<(Ty, Operand)>) -> Result<Seq<(Ty, Operand)>, NoMemory>
    ensures { IfOk result (λ o. o ≡ operands.now) }
{
    let items = operands.as_slice();
    let mut copies = Vec::with_capacity(alloc, items.len())?;
    for item in items {
        copies.push((item.0, item.1.copy(alloc)?))?;
    }
    Ok(Seq::of(copies))
}

fn copy_cases(alloc: Global, cases: &Seq<(u64, Name)>) -> Result<Seq<(u64, Name)>, NoMemory>
    ensures { IfOk result (λ c. c ≡ cases.now) }
{
    let items = cases.as_slice();
    let mut copies = Vec::with_capacity(alloc, items.len())?;
    for item in items {
        copies.push((item.0, item.1.copy(alloc)?))?;
    }
    Ok(Seq::of(copies))
}

fn copy_params(alloc: Global, params: &Seq<(Ty, Name)>) -> Result<Seq<(Ty, Name)>, NoMemory>
    ensures { IfOk result (λ p. p ≡ params.now) }
{
    let items = params.as_slice();
    let mut copies = Vec::with_capacity(alloc, items.len())?;
    for item in items {
        copies.push((item.0, item.1.copy(alloc)?))?;
    }
    Ok(Seq::of(copies))
}

fn copy_instrs(alloc: Global, instrs: &Seq<Instr>) -> Result<Seq<Instr>, NoMemory>
    ensures { IfOk result (λ i. i ≡ instrs.now) }
{
    let items = instrs.as_slice();
    let mut copies = Vec::with_capacity(alloc, items.len())?;
    for item in items {
        copies.push(item.copy(alloc)?)?;
    }
    Ok(Seq::of(copies))
}

fn copy_blocks(alloc: Global, blocks: &Seq<Block>) -> Result<Seq<Block>, NoMemory>
    ensures { IfOk result (λ b. b ≡ blocks.now) }
{
    let items = blocks.as_slice();
    let mut copies = Vec::with_capacity(alloc, items.len())?;
    for item in items {
        copies.push(item.copy(alloc)?)?;
    }
    Ok(Seq::of(copies))
}

fn copy_globals(alloc: Global, globals: &Seq<Global1>) -> Result<Seq<Global1>, NoMemory>
    ensures { IfOk result (λ g. g ≡ globals.now) }
{
    let items = globals.as_slice();
    let mut copies = Vec::with_capacity(alloc, items.len())?;
    for item in items {
        copies.push(item.copy(alloc)?)?;
    }
    Ok(Seq::of(copies))
}

fn copy_functions(alloc: Global, functions: &Seq<Function>) -> Result<Seq<Function>, NoMemory>
    ensures { IfOk result (λ f. f ≡ functions.now) }
{
    let items = functions.as_slice();
    let mut copies = Vec::with_capacity(alloc, items.len())?;
    for item in items {
        copies.push(item.copy(alloc)?)?;
    }
    Ok(Seq::of(copies))
}
