// Whether a module is accepted.
ghost use Rattle.std.specs.Prelude.{◌≡◌, IfOk, IfErr};
ghost use Rattle.ir_check.specs.Refused.{IsRefusedFor};
ghost use Rattle.ir_rules.specs.Accepted.{IsAccepted};
ghost use Rattle.ir_rules.specs.Scopes as scopes;
ghost use Rattle.ir_tree.specs.Names.{Indexes};

use crate::checked::Checked;
use crate::errors::{CheckError, Refused};
use crate::faults::first_in_functions;
use check_names::first_of_names;
use ir_limits::passed;
use ir_rules::well_formed_breaks_none;
use ir_tree::{Index, Module};
use std::alloc::Global;

/// Accepts a module, or hands it back with the first reason against it. The limits are tried before the rules, in their order, and
/// the rules in order of number; within a rule the first place in text order is reported.
pub fn check(alloc: Global, module: Module) -> Result<Checked, Refused>
    ensures same { IfOk result (λ c. c ≡ «module») }
    ensures accepted { IfOk result (λ c. IsAccepted «module») }
    ensures back { IfErr result (λ r. r.«module» ≡ «module») }
    ensures refused { IfErr result (λ r. IsRefusedFor «module» r.why) }
{
    match judge(alloc, &module) {
        Ok(symbols) => Ok(Checked::of(module, symbols)),
        Err(why) => Err(Refused { why, module }),
    }
}

// The index of the symbols of an accepted module.
fn judge(alloc: Global, module: &Module) -> Result<Index, CheckError>
    ensures accepted { IfOk result (λ symbols. IsAccepted «module».now) }
    ensures indexed { IfOk result (λ symbols. Indexes symbols (scopes.symbols «module».now)) }
    ensures refused { IfErr result (IsRefusedFor «module».now) }
{
    well_formed_breaks_none();
    let limit = passed(module);
    match limit {
        Some((which, found)) => return Err(CheckError::Limit { which, found }),
        None => {}
    }
    let (symbols, named) = first_of_names(alloc, module)?;
    match named {
        Some((rule, place)) => return Err(CheckError::Broken { rule, place }),
        None => {}
    }
    let fault = first_in_functions(alloc, &symbols, module)?;
    match fault {
        Some((rule, place)) => Err(CheckError::Broken { rule, place }),
        None => Ok(symbols),
    }
}
