// A checked module made one that counts.
ghost use Rattle.std.specs.Prelude.{◌≡◌, IfErr, IfOk};
ghost use Rattle.count_likeness.specs.Image.{MarksAre};
ghost use Rattle.gen_module.specs.Made.{IsMade, IsRefusedFor};
ghost use Rattle.gen_plan.specs.Gen.{counted};
ghost use Rattle.gen_plan.specs.GenImage.{gen_image};
ghost use Rattle.ir_likeness.specs.Like.{AreLike};
ghost use Rattle.ir_rules.specs.Accepted.{IsAccepted};
ghost use Rattle.ir_rules.specs.Kinds.{kind_of};
ghost use Rattle.ir_rules.specs.declared.place.Kind.TheVariants.{Counted, Plain};

use crate::error::GenError;
use crate::laws::plain_have_plans;
use accepted_counts::plain_modules_count;
use count_insert::insert_into_module;
use counted_accepted::gen_is_accepted;
use gen_code::plan_module;
use ir_check::{Checked, Kind};
use ir_tree::Module;
use pgo_base::NoMemory;
use std::alloc::Global;

/// The module that counts a plain one: a counter for each edge outside a spanning tree of its function, and for the entry where it is
/// counted first; one for each select; and a note for each call through a register. It is what LLVM's pass `pgo-instr-gen` is for.
///
/// The module that is made is accepted as one that counts, and behaves as the original within four steps for one and one more. For each
/// call that returns its marks are the log of the original, in counters. `WrongKind` comes exactly where the module is not plain, with
/// its kind; else memory alone is wanting. The original stays as it is, and is copied once.
pub fn gen_module(alloc: Global, module: &Checked, entry_first: bool) -> Result<Checked, GenError>
    ensures counted { IfOk result (λ made. made ≡ counted entry_first «module».now) }
    ensures plain { IfOk result (λ made. kind_of «module».now.functions ≡ Plain) }
    ensures accepted { IfOk result (λ made. IsAccepted made) }
    ensures kind { IfOk result (λ made. kind_of made.functions ≡ Counted) }
    ensures alike { IfOk result (λ made. AreLike «module».now made 4 1) }
    ensures marks { IfOk result (λ made. MarksAre (gen_image entry_first «module».now) «module».now made 4 1) }
    ensures refused { IfErr result (IsRefusedFor «module».now) }
{
    match module.kind() {
        Kind::Plain => Ok(counted(alloc, module.module(), entry_first)?),
        found => Err(GenError::WrongKind { found }),
    }
}

// The module that counts an accepted plain one.
fn counted(alloc: Global, original: &Module, entry_first: bool) -> Result<Checked, NoMemory>
    requires accepted { IsAccepted original.now }
    requires plain { kind_of original.now.functions ≡ Plain }
    ensures { IfOk result (IsMade entry_first original.now) }
{
    plain_have_plans();
    plain_modules_count();
    gen_is_accepted();
    let plan = plan_module(alloc, original, entry_first)?;
    let made = insert_into_module(alloc, plan, original.copy(alloc)?)?;
    Checked::of_accepted(alloc, made)
}
