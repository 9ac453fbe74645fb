// Rule 5: initialisers have their types and name what the program has, and the globals of a profile fit one another.
ghost use Rattle.std.specs.Prelude.{◌≡◌, IfOk};
ghost use Rattle.std.specs.List.{list_all};
ghost use Rattle.check_names.specs.Few.{HasFew};
ghost use Rattle.check_names.specs.Scene.{IsScene};
ghost use Rattle.ir_rules.specs.Initialisers as spec;
ghost use Rattle.ir_rules.specs.Kinds as kinds;
ghost use Rattle.ir_rules.specs.Parts.{places};
ghost use Rattle.ir_rules.specs.Scopes.{is_program_symbol};
ghost use Rattle.spec_lists.specs.Each.{first_of};

use crate::kinds::{is_unit_counters, is_unit_data, is_unit_name};
use crate::place::variable_place;
use crate::seen::Seen;
use crate::units::is_unit_well;
use crate::values::initialises;
use ir_rules::{Kind, Place};
use ir_tree::{Global1, Index, Init, Module, is_profile_name};
use pgo_base::NoMemory;
use std::alloc::Global;

/// The first place that breaks the rule.
pub(crate) fn ill_initialised(
    alloc: Global,
    kind: Kind,
    index: &Index,
    module: &Module,
) -> Result<Option<Place>, NoMemory>
    requires few { HasFew «module».now }
    requires scene { IsScene kind index.now «module».now }
    ensures { IfOk result (λ at. at ≡ first_of (places (spec.initialisers «module».now) «module».now)) }
{
    let mut texts = Seen::new(alloc);
    for (n, g) in module.globals.as_slice().iter().enumerate() {
        if !is_initialised(kind, index, module, g) {
            return Ok(Some(variable_place(n)));
        }
        if !is_unit_well(alloc, kind, index, module, &mut texts, n, g)? {
            return Ok(Some(variable_place(n)));
        }
    }
    Ok(None)
}

fn is_initialised(kind: Kind, index: &Index, module: &Module, g: &Global1) -> bool
    requires { IsScene kind index.now «module».now }
    ensures { result ≡ spec.is_initialised «module».now g.now }
{
    (is_external(&g.init) || initialises(&g.mem, &g.init))
        && are_of_program(kind, index, module, &g.init)
}

fn is_external(init: &Init) -> bool
    ensures { result ≡ spec.is_external init.now }
{
    match init {
        Init::External => true,
        Init::Int(_) | Init::Null | Init::Symbol(_) | Init::Zero | Init::Bytes(_) | Init::List(_) =>
            false,
    }
}

// Whether the names in an initialiser are names of the program's.
#[tactic(auto, using(crate::proofs::Rows::list_names))]
fn are_of_program(kind: Kind, index: &Index, module: &Module, init: &Init) -> bool
    requires { IsScene kind index.now «module».now }
    ensures { result ≡ list_all (is_program_symbol «module».now) (spec.names_in init.now) }
{
    match init {
        Init::Symbol(name) => is_of_program(kind, index, module, name.bytes()),
        Init::List(inits) => {
            let items = inits.as_slice();
            for item in items {
                if !are_of_program(kind, index, module, item) {
                    return false;
                }
            }
            true
        }
        Init::Int(_) | Init::Null | Init::Zero | Init::Bytes(_) | Init::External => true,
    }
}

// Whether a global variable or function of the program itself has the name, by its place among all names.
fn is_of_program(kind: Kind, index: &Index, module: &Module, name: &[u8]) -> bool
    requires { IsScene kind index.now «module».now }
    ensures { result ≡ is_program_symbol «module».now name.now }
{
    match index.find(name) {
        Some(place) => {
            if place < module.globals.len() {
                return !is_profile_variable(kind, name);
            }
            !is_profile_name(name)
        }
        None => false,
    }
}

fn is_profile_variable(kind: Kind, name: &[u8]) -> bool
    ensures { result ≡ kinds.is_profile_variable kind name.now }
{
    !is_plain(kind) && (is_unit_name(name) || (is_unit_counters(name) || is_unit_data(name)))
}

fn is_plain(kind: Kind) -> bool
    ensures { result ≡ kinds.is_plain_kind kind }
{
    match kind {
        Kind::Plain => true,
        Kind::Counted | Kind::Lowered => false,
    }
}
