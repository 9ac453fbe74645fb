// Rule 4: what the environment provides is declared with its types.
ghost use Rattle.std.specs.Prelude.{◌≡◌, ◌≤◌, length, map};
ghost use Rattle.check_names.specs.Few.{HasFew};
ghost use Rattle.check_names.specs.Outer.{head_places};
ghost use Rattle.ir_rules.specs.Declarations as spec;
ghost use Rattle.ir_rules.specs.Parts.{places};
ghost use Rattle.spec_lists.specs.Each.{first_of};

use crate::place::item_place;
use ir_rules::Place;
use ir_tree::{Function, Module, Name, Ret, Ty, is_print_name, is_profile_name};

/// The first place that breaks the rule.
pub(crate) fn ill_declared(module: &Module) -> Option<Place>
    requires { HasFew «module».now }
    ensures { result ≡ first_of (places spec.declarations «module».now) }
{
    ill_declared_function(module.functions.as_slice())
}

fn ill_declared_function(functions: &[Function]) -> Option<Place>
    requires { length functions.now ≤ 65540 }
    ensures { result ≡ first_of (head_places (λ k f. spec.is_declared_well f) functions.now) }
{
    for (k, f) in functions.iter().enumerate() {
        if !is_declared_well(f) {
            return Some(item_place(k, 0, 0));
        }
    }
    None
}

fn is_declared_well(f: &Function) -> bool
    ensures { result ≡ spec.is_declared_well f.now }
{
    if is_profile_name(f.name.bytes()) {
        return f.is_declared() && has_profile_types(f);
    }
    if f.is_declared() {
        return has_provided_types(f);
    }
    true
}

fn has_profile_types(f: &Function) -> bool
    ensures { result ≡ spec.has_profile_types f.now }
{
    let name = f.name.bytes();
    if is_increment(name) {
        return takes([Ty::Ptr, Ty::I64, Ty::I32, Ty::I32].as_slice(), f);
    }
    if is_increment_step(name) {
        return takes([Ty::Ptr, Ty::I64, Ty::I32, Ty::I32, Ty::I64].as_slice(), f);
    }
    if is_value_note(name) {
        return takes([Ty::Ptr, Ty::I64, Ty::I64, Ty::I32, Ty::I32].as_slice(), f);
    }
    if is_target_note(name) {
        return takes([Ty::I64, Ty::Ptr, Ty::I32].as_slice(), f);
    }
    false
}

fn has_provided_types(f: &Function) -> bool
    ensures { result ≡ spec.has_provided_types f.now }
{
    let name = f.name.bytes();
    if is_print_name(name) {
        return takes([Ty::I64].as_slice(), f);
    }
    if is_lifetime(name) {
        return is_void(f.ret);
    }
    true
}

#[tactic(auto, unfolding(ir_rules::specs::Declarations::is_increment))]
fn is_increment(name: &[u8]) -> bool
    ensures { result ≡ spec.is_increment name.now }
{
    b"llvm.instrprof.increment".as_slice() == name
}

#[tactic(auto, unfolding(ir_rules::specs::Declarations::is_increment_step))]
fn is_increment_step(name: &[u8]) -> bool
    ensures { result ≡ spec.is_increment_step name.now }
{
    b"llvm.instrprof.increment.step".as_slice() == name
}

#[tactic(auto, unfolding(ir_rules::specs::Declarations::is_value_note))]
fn is_value_note(name: &[u8]) -> bool
    ensures { result ≡ spec.is_value_note name.now }
{
    b"llvm.instrprof.value.profile".as_slice() == name
}

#[tactic(auto, unfolding(ir_rules::specs::Declarations::is_target_note))]
fn is_target_note(name: &[u8]) -> bool
    ensures { result ≡ spec.is_target_note name.now }
{
    b"__llvm_profile_instrument_target".as_slice() == name
}

#[tactic(auto, unfolding(ir_rules::specs::Declarations::is_lifetime))]
fn is_lifetime(name: &[u8]) -> bool
    ensures { result ≡ spec.is_lifetime name.now }
{
    b"llvm.lifetime.start.p0".as_slice() == name || b"llvm.lifetime.end.p0".as_slice() == name
}

// Whether the function returns nothing and takes values of these types.
fn takes(types: &[Ty], f: &Function) -> bool
    ensures { result ≡ spec.takes types.now f.now }
{
    is_void(f.ret) && same_tys(types, f.params.as_slice())
}

fn is_void(ret: Ret) -> bool
    ensures { result ≡ spec.is_void ret }
{
    match ret {
        Ret::Void => true,
        Ret::Value(_) => false,
    }
}

#[tactic(auto, using(crate::proofs::Types::types_step, crate::proofs::Types::unequal))]
fn same_tys(types: &[Ty], params: &[(Ty, Name)]) -> bool
    ensures { result ≡ spec.same_tys types.now (map (λ p. p.0) params.now) }
{
    if types.len() != params.len() {
        return false;
    }
    for i in 0..types.len() {
        if !same_ty(types[i], params[i].0) {
            return false;
        }
    }
    true
}

#[tactic(auto, unfolding(ir_rules::specs::Declarations::same_ty))]
fn same_ty(a: Ty, b: Ty) -> bool
    ensures { result ≡ spec.same_ty a b }
{
    a == b
}
