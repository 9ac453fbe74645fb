// The first limit that a module passes.
ghost use Rattle.std.specs.Prelude.{◌≡◌, ◌<◌, ℕ, length, option_map};
ghost use Rattle.ir_limits.specs.Passed.{from_cells, from_edges, from_functions};
ghost use Rattle.ir_rules.specs.Limits as spec;
ghost use Rattle.ir_rules.specs.declared.place.LimitKind.TheVariants.{Edges, Registers};
ghost use Rattle.ir_tree.specs.Edges.{edges_in};
ghost use Rattle.spec_lists.specs.Each.{first_of};

use crate::counts::{edges, registers};
use crate::kinds::{kind_of, most};
use crate::objects::object_above;
use crate::sums::{cells_of_all, counters_in, sites_in};
use ir_rules::{Kind, LimitKind};
use ir_tree::{Function, Module};

/// The quantity where it is above its limit.
fn above(which: LimitKind, bound: u64, found: u64) -> Option<(LimitKind, u64)>
    requires { bound < 18446744073709551615 }
    ensures { (q : ℕ) → found ≡ spec.reported q → result ≡ first_of (spec.above which bound q) }
{
    if found > bound {
        return Some((which, found));
    }
    None
}

// The first function that has too many edges.
fn edges_above(bound: u64, functions: &[Function]) -> Option<u64>
    requires { bound < 18446744073709551615 }
    ensures { option_map (λ found. (Edges, found)) result ≡ first_of (spec.each_above Edges bound edges_in functions.now) }
{
    for f in functions {
        let found = edges(f);
        if found > bound {
            return Some(found);
        }
    }
    None
}

// The first function that has too many registers.
fn registers_above(kind: Kind, bound: u64, functions: &[Function]) -> Option<u64>
    requires { bound < 18446744073709551615 }
    ensures { option_map (λ found. (Registers, found)) result ≡ first_of (spec.each_above Registers bound (spec.registers kind) functions.now) }
{
    for f in functions {
        let found = registers(kind, f);
        if found > bound {
            return Some(found);
        }
    }
    None
}

/// The first limit that the module passes, in the order of the limits, with the quantity that was found or 18446744073709551615
/// where it is greater. A limit on functions is passed by the first that does. Takes no memory.
#[tactic(auto, unfolding(ir_rules::specs::Limits::passed, ir_rules::specs::Limits::all_arrays, ir_rules::specs::Limits::cells))]
pub fn passed(module: &Module) -> Option<(LimitKind, u64)>
    ensures { result ≡ first_of (spec.passed «module».now) }
{
    passed_by(kind_of(module.functions.as_slice()), module)
}

#[tactic(auto, using(crate::proofs::Firsts::found_plain, crate::proofs::Firsts::over_plain))]
fn passed_by(kind: Kind, module: &Module) -> Option<(LimitKind, u64)>
    ensures { result ≡ first_of (from_functions kind «module».now) }
{
    let functions = module.functions.as_slice();
    let counted = above(
        LimitKind::Functions,
        most(kind, LimitKind::Functions),
        functions.len() as u64,
    );
    if counted.is_some() {
        return counted;
    }
    let variables = above(
        LimitKind::Globals,
        most(kind, LimitKind::Globals),
        module.globals.len() as u64,
    );
    if variables.is_some() {
        return variables;
    }
    passed_in_functions(kind, module)
}

#[tactic(auto, using(crate::proofs::Firsts::found_plain, crate::proofs::Firsts::over_plain))]
fn passed_in_functions(kind: Kind, module: &Module) -> Option<(LimitKind, u64)>
    ensures { result ≡ first_of (from_edges kind «module».now) }
{
    let functions = module.functions.as_slice();
    if let Some(found) = edges_above(most(kind, LimitKind::Edges), functions) {
        return Some((LimitKind::Edges, found));
    }
    if let Some(found) = registers_above(kind, most(kind, LimitKind::Registers), functions) {
        return Some((LimitKind::Registers, found));
    }
    if let Some(found) = object_above(kind, module) {
        return Some((LimitKind::Object, found));
    }
    passed_in_all(kind, module)
}

#[tactic(auto, using(crate::proofs::Firsts::found_plain, crate::proofs::Firsts::over_plain), unfolding(ir_rules::specs::Limits::cells))]
fn passed_in_all(kind: Kind, module: &Module) -> Option<(LimitKind, u64)>
    ensures { result ≡ first_of (from_cells kind «module».now) }
{
    let cells = above(
        LimitKind::Cells,
        most(kind, LimitKind::Cells),
        cells_of_all(kind, module.globals.as_slice()),
    );
    if cells.is_some() {
        return cells;
    }
    let sites = above(
        LimitKind::Sites,
        most(kind, LimitKind::Sites),
        sites_in(kind, module),
    );
    if sites.is_some() {
        return sites;
    }
    above(
        LimitKind::Counters,
        most(kind, LimitKind::Counters),
        counters_in(kind, module),
    )
}
