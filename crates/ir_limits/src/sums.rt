// The quantities of all functions and of all globals. Sums stand still at the end of their type.
ghost use Rattle.std.specs.Prelude.{◌≡◌, max, sum_by};
ghost use Rattle.ir_rules.specs.Limits as spec;
ghost use Rattle.ir_tree.specs.Graphs.{is_site};

use crate::counts::{counters, sites};
use crate::globals::{cells_of, told_counters, told_sites};
use ir_rules::Kind;
use ir_tree::{Function, Global1, Module};

fn calls_through(functions: &[Function]) -> u64
    ensures { result ≡ spec.reported (sum_by (spec.total_of is_site) functions.now) }
{
    let mut total = 0u64;
    for f in functions {
        total = total.saturating_add(sites(f));
    }
    total
}

fn counters_of_all(functions: &[Function]) -> u64
    ensures { result ≡ spec.reported (sum_by spec.counters functions.now) }
{
    let mut total = 0u64;
    for f in functions {
        total = total.saturating_add(counters(f));
    }
    total
}

/// The bytes of all globals.
#[tactic(auto, unfolding(ir_rules::specs::Limits::cells))]
pub(crate) fn cells_of_all(kind: Kind, globals: &[Global1]) -> u64
    ensures { result ≡ spec.reported (sum_by (spec.cells_of kind) globals.now) }
{
    let mut total = 0u64;
    for g in globals {
        total = total.saturating_add(cells_of(kind, g));
    }
    total
}

fn sites_told(globals: &[Global1]) -> u64
    ensures { result ≡ spec.reported (sum_by spec.told_sites globals.now) }
{
    let mut total = 0u64;
    for g in globals {
        total = total.saturating_add(told_sites(g));
    }
    total
}

fn counters_told(globals: &[Global1]) -> u64
    ensures { result ≡ spec.reported (sum_by spec.told_counters globals.now) }
{
    let mut total = 0u64;
    for g in globals {
        total = total.saturating_add(told_counters(g));
    }
    total
}

pub(crate) fn sites_in(kind: Kind, module: &Module) -> u64
    ensures { result ≡ spec.reported (spec.sites_in kind «module».now) }
{
    let through = calls_through(module.functions.as_slice());
    match kind {
        Kind::Plain | Kind::Counted => through,
        Kind::Lowered => larger(through, sites_told(module.globals.as_slice())),
    }
}

fn larger(a: u64, b: u64) -> u64
    ensures { result ≡ max a b }
{
    if a < b { b } else { a }
}

pub(crate) fn counters_in(kind: Kind, module: &Module) -> u64
    ensures { result ≡ spec.reported (spec.counters_in kind «module».now) }
{
    match kind {
        Kind::Plain => counters_of_all(module.functions.as_slice()),
        Kind::Counted | Kind::Lowered => counters_told(module.globals.as_slice()),
    }
}
