// What instructions, terminators and blocks give, read and lead to.
ghost use Rattle.std.specs.Prelude.{◌≡◌, ◌-◌, ◌^◌, [], ◌∷◌, length, map, slice_get};
ghost use Rattle.std.specs.Option.{option_map, option_copied};
ghost use Rattle.ir_tree.specs.Operands.{result_of, operands, term_operand, counters_of, same_operand, used};
ghost use Rattle.ir_tree.specs.declared.types.Ty.TheVariants.{Ptr};
ghost use Rattle.ir_tree.specs.Graphs.{is_site, is_select};
ghost use Rattle.ir_tree.specs.Phis.{entries_of, is_phi, phi_count, entry_for};
ghost use Rattle.ir_tree.specs.Successors.{successors, ways_out};
ghost use Rattle.ir_tree.specs.Types.{width_of, literal_of, is_integer_of};

use crate::name::Name;
use crate::types::{Block, Instr, Operand, Ret, Term, Ty};

impl Instr {
    /// The name and type of the result, None where the instruction gives none. A named call of a function that returns
    /// nothing has the type `void`.
    pub fn result(&self) -> Option<(&Name, Ret)>
        ensures { option_map (λ r. (r.0.now, r.1)) result ≡ result_of self.now }
    {
        match self {
            Instr::Binary { dest, ty, .. }
            | Instr::Freeze { dest, ty, .. }
            | Instr::Select { dest, ty, .. }
            | Instr::Phi { dest, ty, .. }
            | Instr::Load { dest, ty, .. } => Some((dest, Ret::Value(*ty))),
            Instr::Compare { dest, .. } => Some((dest, Ret::Value(Ty::I1))),
            Instr::Convert { dest, to, .. } => Some((dest, Ret::Value(*to))),
            Instr::Alloca { dest, .. } | Instr::Gep { dest, .. } => Some((
                dest,
                Ret::Value(Ty::Ptr),
            )),
            Instr::Call {
                dest: Some(dest),
                ret,
                ..
            } => Some((dest, *ret)),
            Instr::Call { dest: None, .. } | Instr::Store { .. } | Instr::Count { .. } => None,
        }
    }

    /// How many operands the instruction has, the values of a phi among them.
    pub fn operand_count(&self) -> usize
        ensures { result ≡ length (operands self.now) }
    {
        match self {
            Instr::Binary { .. } | Instr::Compare { .. } | Instr::Store { .. } => 2,
            Instr::Convert { .. }
            | Instr::Freeze { .. }
            | Instr::Load { .. }
            | Instr::Count { .. } => 1,
            Instr::Select { .. } => 3,
            Instr::Phi { entries, .. } => entries.as_slice().len(),
            Instr::Alloca { .. } => 0,
            Instr::Gep { indices, .. } => indices.as_slice().len() + 1,
            Instr::Call { args, .. } => args.as_slice().len() + 1,
        }
    }

    /// The operand at a place in text order, with the type of that place.
    pub fn operand(&self, place: usize) -> Option<(Ty, &Operand)>
        ensures { option_map used result ≡ slice_get (operands self.now) place }
    {
        match self {
            Instr::Binary {
                ty,
                left,
                right,
                ..
            }
            | Instr::Compare {
                ty,
                left,
                right,
                ..
            } => { of_two(place, (*ty, left), (*ty, right)) }
            Instr::Convert { from, value, .. } => of_one(place, (*from, value)),
            Instr::Freeze { ty, value, .. } => of_one(place, (*ty, value)),
            Instr::Select {
                cond,
                ty,
                yes,
                no,
                ..
            } => {
                if place == 0 {
                    Some((Ty::I1, cond))
                } else {
                    of_two(place - 1, (*ty, yes), (*ty, no))
                }
            }
            Instr::Phi { ty, entries, .. } => of_entries(place, *ty, entries.as_slice()),
            Instr::Alloca { .. } => None,
            Instr::Load { address, .. } => of_one(place, (Ty::Ptr, address)),
            Instr::Store { ty, value, address } => of_two(place, (*ty, value), (Ty::Ptr, address)),
            Instr::Gep {
                address,
                indices,
                ..
            } => of_list(place, address, indices.as_slice()),
            Instr::Call { callee, args, .. } => of_list(place, callee, args.as_slice()),
            Instr::Count { step, .. } => of_one(place, (Ty::I64, step)),
        }
    }

    /// The array of counters that the instruction names.
    pub fn counters(&self) -> Option<&Name>
        ensures { option_copied result ≡ counters_of self.now }
    {
        match self {
            Instr::Count { symbol, .. } => Some(symbol),
            Instr::Binary { .. }
            | Instr::Compare { .. }
            | Instr::Convert { .. }
            | Instr::Freeze { .. }
            | Instr::Select { .. }
            | Instr::Phi { .. }
            | Instr::Alloca { .. }
            | Instr::Load { .. }
            | Instr::Store { .. }
            | Instr::Gep { .. }
            | Instr::Call { .. } => None,
        }
    }

    /// The entries of a phi, None of another instruction.
    pub fn entries(&self) -> Option<&[(Operand, Name)]>
        ensures { option_map (λ es. es.now) result ≡ entries_of self.now }
    {
        match self {
            Instr::Phi { entries, .. } => Some(entries.as_slice()),
            Instr::Binary { .. }
            | Instr::Compare { .. }
            | Instr::Convert { .. }
            | Instr::Freeze { .. }
            | Instr::Select { .. }
            | Instr::Alloca { .. }
            | Instr::Load { .. }
            | Instr::Store { .. }
            | Instr::Gep { .. }
            | Instr::Call { .. }
            | Instr::Count { .. } => None,
        }
    }

    /// Whether the instruction is a phi.
    pub fn is_phi(&self) -> bool
        ensures { result ≡ is_phi self.now }
    {
        self.entries().is_some()
    }

    /// Whether the instruction is a call through a local: its callee is a parameter or result, so that a run decides which
    /// function it calls.
    pub fn is_site(&self) -> bool
        ensures { result ≡ is_site self.now }
    {
        match self {
            Instr::Call { callee, .. } => matches!(callee, Operand::Local(_)),
            Instr::Binary { .. }
            | Instr::Compare { .. }
            | Instr::Convert { .. }
            | Instr::Freeze { .. }
            | Instr::Select { .. }
            | Instr::Phi { .. }
            | Instr::Alloca { .. }
            | Instr::Load { .. }
            | Instr::Store { .. }
            | Instr::Gep { .. }
            | Instr::Count { .. } => false,
        }
    }

    /// Whether the instruction is a select.
    pub fn is_select(&self) -> bool
        ensures { result ≡ is_select self.now }
    {
        match self {
            Instr::Select { .. } => true,
            Instr::Binary { .. }
            | Instr::Compare { .. }
            | Instr::Convert { .. }
            | Instr::Freeze { .. }
            | Instr::Phi { .. }
            | Instr::Alloca { .. }
            | Instr::Load { .. }
            | Instr::Store { .. }
            | Instr::Gep { .. }
            | Instr::Call { .. }
            | Instr::Count { .. } => false,
        }
    }
}

fn of_one<'a>(place: usize, only: (Ty, &'a Operand)) -> Option<(Ty, &'a Operand)>
    ensures { option_map used result ≡ slice_get (used only.entry ∷ []) place }
{
    match place {
        0 => Some(only),
        _ => None,
    }
}

fn of_two<'a>(
    place: usize,
    first: (Ty, &'a Operand),
    second: (Ty, &'a Operand),
) -> Option<(Ty, &'a Operand)>
    ensures { option_map used result ≡ slice_get (used first.entry ∷ used second.entry ∷ []) place }
{
    match place {
        0 => Some(first),
        1 => Some(second),
        _ => None,
    }
}

fn of_entries(place: usize, ty: Ty, entries: &[(Operand, Name)]) -> Option<(Ty, &Operand)>
    ensures { option_map used result ≡ slice_get (map (λ e. (ty, e.0)) entries.now) place }
{
    match entries.get(place) {
        Some(entry) => Some((ty, &entry.0)),
        None => None,
    }
}

fn of_list<'a>(
    place: usize,
    first: &'a Operand,
    others: &'a [(Ty, Operand)],
) -> Option<(Ty, &'a Operand)>
    ensures { option_map used result ≡ slice_get ((Ptr, first.now) ∷ others.now) place }
{
    if place == 0 {
        return Some((Ty::Ptr, first));
    }
    match others.get(place - 1) {
        Some(other) => Some((other.0, &other.1)),
        None => None,
    }
}

/// How many phis stand in front of a list of instructions.
pub fn phi_count(instrs: &[Instr]) -> usize
    ensures { result ≡ phi_count instrs.now }
{
    for (i, instr) in instrs.iter().enumerate() {
        if !instr.is_phi() {
            return i;
        }
    }
    instrs.len()
}

/// The first entry for a label.
pub fn entry_for<'a>(label: &Name, entries: &'a [(Operand, Name)]) -> Option<&'a (Operand, Name)>
    ensures { option_copied result ≡ entry_for label.now entries.now }
{
    entries.iter().find(|entry| label == &entry.1)
}

impl Term {
    /// How many successors the terminator names; parallel ones count each.
    pub fn successor_count(&self) -> usize
        ensures { result ≡ length (successors self.now) }
    {
        match self {
            Term::Br { .. } => 1,
            Term::CondBr { .. } => 2,
            Term::Switch { cases, .. } => cases.as_slice().len() + 1,
            Term::Ret { .. } | Term::Unreachable => 0,
        }
    }

    /// The label of the successor at a position, counted from 0; the default of a switch comes first.
    pub fn successor(&self, position: usize) -> Option<&Name>
        ensures { option_copied result ≡ slice_get (successors self.now) position }
    {
        match self {
            Term::Br { to } => of_label(position, to),
            Term::CondBr { yes, no, .. } => of_labels(position, yes, no),
            Term::Switch { default, cases, .. } => of_cases(position, default, cases.as_slice()),
            Term::Ret { .. } | Term::Unreachable => None,
        }
    }

    /// The operand, with the type of its place; no terminator has more than one.
    pub fn operand(&self) -> Option<(Ty, &Operand)>
        ensures { option_map used result ≡ term_operand self.now }
    {
        match self {
            Term::CondBr { cond, .. } => Some((Ty::I1, cond)),
            Term::Switch { ty, value, .. } => Some((*ty, value)),
            Term::Ret {
                value: Some((ty, value)),
            } => Some((*ty, value)),
            Term::Br { .. } | Term::Ret { value: None } | Term::Unreachable => None,
        }
    }
}

fn of_label(position: usize, only: &Name) -> Option<&Name>
    ensures { option_copied result ≡ slice_get (only.now ∷ []) position }
{
    match position {
        0 => Some(only),
        _ => None,
    }
}

fn of_labels<'a>(position: usize, first: &'a Name, second: &'a Name) -> Option<&'a Name>
    ensures { option_copied result ≡ slice_get (first.now ∷ second.now ∷ []) position }
{
    match position {
        0 => Some(first),
        1 => Some(second),
        _ => None,
    }
}

fn case_label(place: usize, cases: &[(u64, Name)]) -> Option<&Name>
    ensures { option_copied result ≡ slice_get (map (λ c. c.1) cases.now) place }
{
    match cases.get(place) {
        Some(case) => Some(&case.1),
        None => None,
    }
}

fn of_cases<'a>(position: usize, default: &'a Name, cases: &'a [(u64, Name)]) -> Option<&'a Name>
    ensures { option_copied result ≡ slice_get (default.now ∷ map (λ c. c.1) cases.now) position }
{
    if position == 0 {
        return Some(default);
    }
    case_label(position - 1, cases)
}

impl Block {
    /// How many ways lead out of the block: its successor positions, or one exit where it has none.
    pub fn ways_out(&self) -> usize
        ensures { result ≡ ways_out self.now }
    {
        self.term.successor_count().max(1)
    }
}

impl Operand {
    /// Whether two operands are the same: equal literals or equal names.
    pub fn is_same(&self, other: &Operand) -> bool
        ensures { result ≡ same_operand self.now other.now }
    {
        self == other
    }
}

impl Ty {
    /// The bits of an integer type, None of a pointer.
    pub fn width(self) -> Option<u32>
        ensures { result ≡ width_of self }
    {
        match self {
            Ty::I1 => Some(1),
            Ty::I8 => Some(8),
            Ty::I16 => Some(16),
            Ty::I32 => Some(32),
            Ty::I64 => Some(64),
            Ty::Ptr => None,
        }
    }

    /// Whether the number is an integer of the type: below 2 to its width. A pointer type has none.
    pub fn has_integer(self, value: u64) -> bool
        ensures { result ≡ is_integer_of self value }
    {
        match self {
            Ty::I1 => value < 1 << 1,
            Ty::I8 => value < 1 << 8,
            Ty::I16 => value < 1 << 16,
            Ty::I32 => value < 1 << 32,
            Ty::I64 => true,
            Ty::Ptr => false,
        }
    }

    // How far below 0 a literal of the type goes, and how many integers the type has.
    fn ends(self) -> Option<(u64, u128)>
        ensures { result ≡ option_map (λ w. (2 ^ (w - 1), 2 ^ w)) (width_of self) }
    {
        match self {
            Ty::I1 => Some((1, 1 << 1)),
            Ty::I8 => Some((1 << 7, 1 << 8)),
            Ty::I16 => Some((1 << 15, 1 << 16)),
            Ty::I32 => Some((1 << 31, 1 << 32)),
            Ty::I64 => Some((1 << 63, 1 << 64)),
            Ty::Ptr => None,
        }
    }

    /// The literal with this sign and magnitude, kept modulo 2 to the type's width; None where it is not from
    /// -2^(width-1) to 2^width - 1, and None at a pointer.
    pub fn literal(self, minus: bool, magnitude: u64) -> Option<u64>
        ensures { result ≡ literal_of self minus magnitude }
    {
        let (least, count) = self.ends()?;
        let wide = u128::from(magnitude);
        if minus {
            if magnitude <= least {
                Some(((count - wide) % count) as u64)
            } else {
                None
            }
        } else if wide < count {
            Some(magnitude)
        } else {
            None
        }
    }
}
