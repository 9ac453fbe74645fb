// What a module gets behind its own globals and functions.
ghost use Rattle.std.specs.Prelude.{◌≡◌, ◌∷◌, [], IfOk};
ghost use Rattle.count_plan.specs.Calls.{increment_name, step_name, value_name};
ghost use Rattle.gen_code.specs.Planned.{intrinsics};
ghost use Rattle.gen_plan.specs.Gen as spec;
ghost use Rattle.ir_tree.specs.declared.types.Ty.TheVariants.{I32, I64, Ptr};

use ir_tree::{Function, Global1, Init, MemTy, Name, Ret, Seq, Ty};
use pgo_base::NoMemory;
use sqlite_items::Boxed;
use std::alloc::Global;

// The name of the global that names the record of a function.
pub(crate) fn record_name(alloc: Global, name: &Name) -> Result<Name, NoMemory>
    ensures { IfOk result (λ made. made ≡ spec.record_name name.now) }
{
    let mut bytes = Vec::from_slice(alloc, b"__profn_")?;
    bytes.extend_from_slice(name.bytes())?;
    Name::of(alloc, bytes.as_slice())
}

// That global.
pub(crate) fn record_global(alloc: Global, name: &Name) -> Result<Global1, NoMemory>
    ensures { IfOk result (λ made. made ≡ spec.record_global name.now) }
{
    Ok(Global1 {
        name: record_name(alloc, name)?,
        constant: true,
        mem: MemTy::Array {
            count: name.bytes().len() as u64,
            element: Boxed::new(alloc, MemTy::Scalar(Ty::I8))?,
        },
        init: Init::Bytes(Seq::of(Vec::from_slice(alloc, name.bytes())?)),
    })
}

fn declaration(alloc: Global, name: &[u8], types: &[Ty]) -> Result<Function, NoMemory>
    ensures { IfOk result (λ made. made ≡ spec.declaration name.now types.now) }
{
    let mut params = Vec::with_capacity(alloc, types.len())?;
    for ty in types {
        params.push((*ty, Name::default()))?;
    }
    Ok(Function {
        name: Name::of(alloc, name)?,
        ret: Ret::Void,
        params: Seq::of(params),
        blocks: Seq::new(alloc),
        prof: None,
    })
}

#[tactic(auto, unfolding(count_plan::specs::Calls::increment_name))]
fn increment(alloc: Global) -> Result<Function, NoMemory>
    ensures { IfOk result (λ made. made ≡ spec.declaration increment_name (Ptr ∷ I64 ∷ I32 ∷ I32 ∷ [])) }
{
    let types = [Ty::Ptr, Ty::I64, Ty::I32, Ty::I32];
    declaration(alloc, b"llvm.instrprof.increment", types.as_slice())
}

#[tactic(auto, unfolding(count_plan::specs::Calls::value_name))]
fn value(alloc: Global) -> Result<Function, NoMemory>
    ensures { IfOk result (λ made. made ≡ spec.declaration value_name (Ptr ∷ I64 ∷ I64 ∷ I32 ∷ I32 ∷ [])) }
{
    let types = [Ty::Ptr, Ty::I64, Ty::I64, Ty::I32, Ty::I32];
    declaration(alloc, b"llvm.instrprof.value.profile", types.as_slice())
}

#[tactic(auto, unfolding(count_plan::specs::Calls::step_name))]
fn step(alloc: Global) -> Result<Function, NoMemory>
    ensures { IfOk result (λ made. made ≡ spec.declaration step_name (Ptr ∷ I64 ∷ I32 ∷ I32 ∷ I64 ∷ [])) }
{
    let types = [Ty::Ptr, Ty::I64, Ty::I32, Ty::I32, Ty::I64];
    declaration(alloc, b"llvm.instrprof.increment.step", types.as_slice())
}

// The intrinsics that count, the one that counts selects only where there are some.
pub(crate) fn declarations(alloc: Global, selects: bool) -> Result<Seq<Function>, NoMemory>
    ensures { IfOk result (λ made. made ≡ intrinsics selects) }
{
    let mut made = Vec::with_capacity(alloc, 3)?;
    made.push(increment(alloc)?)?;
    made.push(value(alloc)?)?;
    if selects {
        made.push(step(alloc)?)?;
    }
    Ok(Seq::of(made))
}
