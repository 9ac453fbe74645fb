// What the three globals of a unit hold: its name, its counters, and its data.
ghost use Rattle.std.specs.Prelude.{◌≡◌};
ghost use Rattle.std.specs.Option.{option_copied};
ghost use Rattle.check_names.specs.Told as tells;
ghost use Rattle.ir_rules.specs.Units as spec;

use ir_tree::{Global1, Init, MemTy, Ty};

/// The cells of an array: bytes, or words of 64 bits.
#[derive(Clone, Copy)]
pub(crate) enum Cell {
    Byte,
    Word,
}

/// The length of an array of such cells, none of another type.
pub(crate) fn length_of(cell: Cell, mem: &MemTy) -> Option<u64>
    ensures { result ≡ spec.length_of (tells.is_cell cell) mem.now }
{
    match mem {
        MemTy::Scalar(_) => None,
        MemTy::Array { count, element } => {
            if is_scalar(cell, element.get()) {
                return Some(*count);
            }
            None
        }
    }
}

fn is_scalar(cell: Cell, mem: &MemTy) -> bool
    ensures { result ≡ spec.is_scalar (tells.is_cell cell) mem.now }
{
    match mem {
        MemTy::Scalar(ty) => is_cell(cell, *ty),
        MemTy::Array { .. } => false,
    }
}

fn is_cell(cell: Cell, ty: Ty) -> bool
    ensures { result ≡ tells.is_cell cell ty }
{
    match cell {
        Cell::Byte => is_i8(ty),
        Cell::Word => is_i64(ty),
    }
}

fn is_i8(ty: Ty) -> bool
    ensures { result ≡ spec.is_i8 ty }
{
    match ty {
        Ty::I8 => true,
        Ty::I1 | Ty::I16 | Ty::I32 | Ty::I64 | Ty::Ptr => false,
    }
}

fn is_i64(ty: Ty) -> bool
    ensures { result ≡ spec.is_i64 ty }
{
    match ty {
        Ty::I64 => true,
        Ty::I1 | Ty::I8 | Ty::I16 | Ty::I32 | Ty::Ptr => false,
    }
}

/// The name that a constant array of bytes spells.
pub(crate) fn text_of(g: &Global1) -> Option<&[u8]>
    ensures { option_copied result ≡ spec.text_of g.now }
{
    if !g.constant {
        return None;
    }
    match length_of(Cell::Byte, &g.mem) {
        Some(n) => of_length(n, bytes_in(&g.init)),
        None => None,
    }
}

fn of_length(n: u64, bytes: Option<&[u8]>) -> Option<&[u8]>
    ensures { option_copied result ≡ spec.of_length (Some n) (option_copied bytes.entry) }
{
    match bytes {
        Some(bytes) => {
            if bytes.len() as u64 == n {
                return Some(bytes);
            }
            None
        }
        None => None,
    }
}

fn bytes_in(init: &Init) -> Option<&[u8]>
    ensures { option_copied result ≡ spec.bytes_in init.now }
{
    match init {
        Init::Bytes(bytes) => Some(bytes.as_slice()),
        Init::Int(_) | Init::Null | Init::Symbol(_) | Init::Zero | Init::List(_) | Init::External =>
            None,
    }
}

/// The number of counters of a variable array of 64-bit zeros.
pub(crate) fn counters_of(g: &Global1) -> Option<u64>
    ensures { result ≡ spec.counters_of g.now }
{
    if !g.constant && is_zero(&g.init) {
        return length_of(Cell::Word, &g.mem);
    }
    None
}

fn is_zero(init: &Init) -> bool
    ensures { result ≡ spec.is_zero init.now }
{
    match init {
        Init::Zero => true,
        Init::Int(_)
        | Init::Null
        | Init::Symbol(_)
        | Init::Bytes(_)
        | Init::List(_)
        | Init::External => false,
    }
}

/// The hash of the unit's name and the number of its counters, by its data.
pub(crate) fn told(g: &Global1) -> Option<(u64, u64)>
    ensures { result ≡ tells.told (spec.data_of g.now) }
{
    if g.constant {
        return None;
    }
    if is_four(length_of(Cell::Word, &g.mem)) {
        told_in(&g.init)
    } else {
        None
    }
}

fn is_four(length: Option<u64>) -> bool
    ensures { result ≡ spec.is_some_length 4 length }
{
    match length {
        Some(n) => n == 4,
        None => false,
    }
}

fn told_in(init: &Init) -> Option<(u64, u64)>
    ensures { result ≡ tells.told (spec.as_data (spec.literals_of init.now)) }
{
    match init {
        Init::List(items) => told_in_list(items.as_slice()),
        Init::Int(_)
        | Init::Null
        | Init::Symbol(_)
        | Init::Zero
        | Init::Bytes(_)
        | Init::External => None,
    }
}

#[tactic(auto, using(crate::proofs::Literals::four_of, crate::proofs::Literals::not_four))]
fn told_in_list(items: &[Init]) -> Option<(u64, u64)>
    ensures { result ≡ tells.told (spec.as_data (tells.literals_in_list items.now)) }
{
    if items.len() != 4 {
        return None;
    }
    told_by(
        literal(&items[0]),
        literal(&items[1]),
        literal(&items[2]),
        literal(&items[3]),
    )
}

fn told_by(a: Option<u64>, b: Option<u64>, c: Option<u64>, d: Option<u64>) -> Option<(u64, u64)>
    ensures { result ≡ tells.told_by a b c d }
{
    match (a, b, c, d) {
        (Some(hash), Some(_), Some(counters), Some(_)) => Some((hash, counters)),
        (None, _, _, _)
        | (Some(_), None, _, _)
        | (Some(_), Some(_), None, _)
        | (Some(_), Some(_), Some(_), None) => None,
    }
}

fn literal(init: &Init) -> Option<u64>
    ensures { result ≡ spec.literal_of init.now }
{
    match init {
        Init::Int(value) => Some(*value),
        Init::Null
        | Init::Symbol(_)
        | Init::Zero
        | Init::Bytes(_)
        | Init::List(_)
        | Init::External => None,
    }
}
