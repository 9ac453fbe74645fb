// Operands: whether they exist, and whether they have the types of their places. Each is looked up once.
ghost use Rattle.std.specs.Prelude.{◌≡◌, ◌&&◌, ◌||◌, not, is_some, false};
ghost use Rattle.std.specs.List.{list_all};
ghost use Rattle.std.specs.Option.{option_map};
ghost use Rattle.check_operands.specs.Found.{Knows, gives_found, is_profile_at, symbol_place};
ghost use Rattle.ir_rules.specs.Existing as existing;
ghost use Rattle.ir_rules.specs.Finding.{kind_ret, ret_found};
ghost use Rattle.ir_rules.specs.Kinds as kinds;
ghost use Rattle.ir_rules.specs.Lists.{is_among};
ghost use Rattle.ir_rules.specs.Scopes.{is_of_profile, symbols, term_reads, values};
ghost use Rattle.ir_rules.specs.Typing.{fits, fits_at};
ghost use Rattle.ir_tree.specs.Names.{first_place};
ghost use Rattle.ir_tree.specs.Operands.{listed, operands, used};

use crate::scope::Scope;
use crate::types::{is_pointer, same_ty};
use ir_rules::Kind;
use ir_tree::{Index, Instr, Local, LocalKind, Operand, Ret, Term, Ty, is_profile_name};

/// Whether operands exist, and whether they have the types of their places.
#[derive(Clone, Copy)]
pub(crate) struct Seen {
    pub(crate) exist: bool,
    pub(crate) fit: bool,
}

/// The operands of an instruction, where none may be of the profile.
pub(crate) fn see_operands(scope: &Scope, instr: &Instr) -> Seen
    requires { Knows scope.now }
    ensures exist { result.exist ≡ list_all (λ u. existing.exists scope.now.module.now scope.now.function.now false u.1) (operands instr.now) }
    ensures fit { result.fit ≡ list_all (fits (values scope.now.function.now)) (operands instr.now) }
{
    let mut all = Seen {
        exist: true,
        fit: true,
    };
    for place in 0..instr.operand_count() {
        all = both(all, see_found(scope, instr.operand(place)));
    }
    all
}

/// A list of operands, which may be of the profile where `allowed` says so.
pub(crate) fn see_all(scope: &Scope, allowed: bool, uses: &[(Ty, Operand)]) -> Seen
    requires { Knows scope.now }
    ensures exist { result.exist ≡ list_all (λ u. existing.exists scope.now.module.now scope.now.function.now allowed u.1) uses.now }
    ensures fit { result.fit ≡ list_all (fits (values scope.now.function.now)) uses.now }
{
    let mut all = Seen {
        exist: true,
        fit: true,
    };
    for one in uses {
        all = both(all, see(scope, allowed, one.0, &one.1));
    }
    all
}

/// The operand of a terminator.
pub(crate) fn see_term(scope: &Scope, term: &Term) -> Seen
    requires { Knows scope.now }
    ensures exist { result.exist ≡ existing.term_exists scope.now.module.now scope.now.function.now term.now }
    ensures fit { result.fit ≡ list_all (fits (values scope.now.function.now)) (term_reads term.now) }
{
    see_found(scope, term.operand())
}

/// What two say of all operands.
pub(crate) fn both(a: Seen, b: Seen) -> Seen
    ensures exist { result.exist ≡ (a.exist && b.exist) }
    ensures fit { result.fit ≡ (a.fit && b.fit) }
{
    Seen {
        exist: a.exist && b.exist,
        fit: a.fit && b.fit,
    }
}

fn see_found(scope: &Scope, found: Option<(Ty, &Operand)>) -> Seen
    requires { Knows scope.now }
    ensures exist { result.exist ≡ list_all (λ u. existing.exists scope.now.module.now scope.now.function.now false u.1) (listed (option_map used found.entry)) }
    ensures fit { result.fit ≡ list_all (fits (values scope.now.function.now)) (listed (option_map used found.entry)) }
{
    match found {
        Some((ty, operand)) => see(scope, false, ty, operand),
        None => Seen {
            exist: true,
            fit: true,
        },
    }
}

fn see(scope: &Scope, allowed: bool, ty: Ty, operand: &Operand) -> Seen
    requires { Knows scope.now }
    ensures exist { result.exist ≡ existing.exists scope.now.module.now scope.now.function.now allowed operand.now }
    ensures fit { result.fit ≡ fits_at (values scope.now.function.now) ty operand.now }
{
    see_at(
        scope,
        allowed,
        ty,
        operand,
        place_of(scope.symbols, operand),
    )
}

/// The place of the global variable or function that an operand names.
pub(crate) fn place_of(symbols: &Index, operand: &Operand) -> Option<usize>
    ensures { result ≡ symbol_place symbols.now operand.now }
{
    match operand {
        Operand::Global(name) => symbols.find(name.bytes()),
        Operand::Int(_) | Operand::Null | Operand::Local(_) => None,
    }
}

/// An operand at a place of a type, with the place of the symbol that it names.
pub(crate) fn see_at(
    scope: &Scope,
    allowed: bool,
    ty: Ty,
    operand: &Operand,
    place: Option<usize>,
) -> Seen
    requires knows { Knows scope.now }
    requires place { place ≡ symbol_place scope.now.symbols.now operand.now }
    ensures exist { result.exist ≡ existing.exists scope.now.module.now scope.now.function.now allowed operand.now }
    ensures fit { result.fit ≡ fits_at (values scope.now.function.now) ty operand.now }
{
    match operand {
        Operand::Int(value) => Seen {
            exist: true,
            fit: ty.has_integer(*value),
        },
        Operand::Null => Seen {
            exist: true,
            fit: is_pointer(ty),
        },
        Operand::Local(name) => see_local(ty, scope.known.find(name.bytes())),
        Operand::Global(name) => Seen {
            exist: may_stand(scope, allowed, name.bytes(), place),
            fit: is_pointer(ty),
        },
    }
}

fn see_local(ty: Ty, found: Option<Local>) -> Seen
    ensures exist { result.exist ≡ is_some (ret_found found) }
    ensures fit { result.fit ≡ gives_found ty (ret_found found) }
{
    match found {
        Some(local) => see_kind(ty, local.kind),
        None => Seen {
            exist: false,
            fit: false,
        },
    }
}

fn see_kind(ty: Ty, kind: LocalKind) -> Seen
    ensures exist { result.exist ≡ is_some (kind_ret kind) }
    ensures fit { result.fit ≡ gives_found ty (kind_ret kind) }
{
    match kind {
        LocalKind::Param(given) | LocalKind::Result(Ret::Value(given)) => Seen {
            exist: true,
            fit: same_ty(given, ty),
        },
        LocalKind::Result(Ret::Void) => Seen {
            exist: true,
            fit: false,
        },
        LocalKind::Label => Seen {
            exist: false,
            fit: false,
        },
    }
}

// Whether a name is that of a global variable or function, one of the profile only where that is allowed.
fn may_stand(scope: &Scope, allowed: bool, name: &[u8], place: Option<usize>) -> bool
    requires knows { Knows scope.now }
    requires place { place ≡ first_place scope.now.symbols.now name.now }
    ensures { result ≡ (is_among name.now (symbols scope.now.module.now) && (allowed || not (is_of_profile scope.now.module.now name.now))) }
{
    match place {
        Some(p) => {
            allowed || !is_profile_at(scope.kind, scope.module.globals.as_slice().len(), name, p)
        }
        None => false,
    }
}

fn is_profile_at(kind: Kind, globals: usize, name: &[u8], place: usize) -> bool
    ensures { result ≡ is_profile_at kind globals name.now place }
{
    if place < globals {
        is_profile_variable(kind, name)
    } else {
        is_profile_name(name)
    }
}

fn is_profile_variable(kind: Kind, name: &[u8]) -> bool
    ensures { result ≡ kinds.is_profile_variable kind name.now }
{
    match kind {
        Kind::Plain => false,
        Kind::Counted | Kind::Lowered => is_unit_name(name)
            || (is_unit_counters(name) || is_unit_data(name)),
    }
}

#[tactic(auto, unfolding(ir_rules::specs::Kinds::is_unit_name))]
fn is_unit_name(name: &[u8]) -> bool
    ensures { result ≡ kinds.is_unit_name name.now }
{
    name.starts_with(b"__profn_".as_slice())
}

#[tactic(auto, unfolding(ir_rules::specs::Kinds::is_unit_counters))]
fn is_unit_counters(name: &[u8]) -> bool
    ensures { result ≡ kinds.is_unit_counters name.now }
{
    name.starts_with(b"__profc_".as_slice())
}

#[tactic(auto, unfolding(ir_rules::specs::Kinds::is_unit_data))]
fn is_unit_data(name: &[u8]) -> bool
    ensures { result ≡ kinds.is_unit_data name.now }
{
    name.starts_with(b"__profd_".as_slice())
}
