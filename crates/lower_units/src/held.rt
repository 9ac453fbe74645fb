// The name that a unit's global holds.
ghost use Rattle.std.specs.Prelude.{◌≡◌, Some, IfSome};
ghost use Rattle.std.specs.Option.{option_copied};
ghost use Rattle.ir_rules.specs.Units as units;
ghost use Rattle.lowering.specs.Refusals.{name_of_unit};
ghost use Rattle.lowering.specs.Units as spec;

use ir_tree::{Global1, Init, MemTy, Ty};

fn is_i8(ty: Ty) -> bool
    ensures { result ≡ units.is_i8 ty }
{
    match ty {
        Ty::I8 => true,
        Ty::I1 | Ty::I16 | Ty::I32 | Ty::I64 | Ty::Ptr => false,
    }
}

fn is_byte(mem: &MemTy) -> bool
    ensures { result ≡ units.is_scalar units.is_i8 mem.now }
{
    match mem {
        MemTy::Scalar(ty) => is_i8(*ty),
        MemTy::Array { .. } => false,
    }
}

// The length of an array of bytes.
fn length_of_i8(mem: &MemTy) -> Option<u64>
    ensures { result ≡ units.length_of units.is_i8 mem.now }
{
    match mem {
        MemTy::Scalar(_) => None,
        MemTy::Array { count, element } => {
            if is_byte(element.get()) {
                return Some(*count);
            }
            None
        }
    }
}

fn bytes_in(init: &Init) -> Option<&[u8]>
    ensures { option_copied result ≡ units.bytes_in init.now }
{
    match init {
        Init::Bytes(bytes) => Some(bytes.as_slice()),
        Init::Int(_) | Init::Null | Init::Symbol(_) | Init::Zero | Init::List(_) | Init::External =>
            None,
    }
}

fn of_length(n: u64, bytes: Option<&[u8]>) -> Option<&[u8]>
    ensures { option_copied result ≡ units.of_length (Some n) (option_copied bytes.entry) }
{
    match bytes {
        Some(bytes) => {
            if bytes.len() as u64 == n {
                return Some(bytes);
            }
            None
        }
        None => None,
    }
}

// The name that a constant array of bytes spells.
fn text_of(g: &Global1) -> Option<&[u8]>
    ensures { option_copied result ≡ units.text_of g.now }
{
    if !g.constant {
        return None;
    }
    match length_of_i8(&g.mem) {
        Some(n) => of_length(n, bytes_in(&g.init)),
        None => None,
    }
}

// The name that the global holds, empty where it holds none.
pub(crate) fn name_held(g: &Global1) -> &[u8]
    ensures { result.now ≡ spec.name_held g.now }
{
    match text_of(g) {
        Some(name) => name,
        None => &[],
    }
}

// The name of the unit of a global.
pub(crate) fn name_of_unit<'a>(globals: &'a [Global1], symbol: &[u8]) -> &'a [u8]
    ensures { result.now ≡ name_of_unit globals.now symbol.now }
{
    match globals.iter().find(|g| symbol == g.name.bytes()) {
        Some(g) => name_held(g),
        None => &[],
    }
}
