// Names that records of a profile may have, their hashes, and numbers of counters.
ghost use Rattle.std.specs.Prelude.{◌≡◌};
ghost use Rattle.std.specs.Char.{is_ascii_digit};
ghost use Rattle.std.specs.List.{list_all};
ghost use Rattle.std.specs.Option.{option_copied};
ghost use Rattle.ir_rules.specs.Initialisers as spec;
ghost use Rattle.ir_rules.specs.Intrinsics as intrinsics;

use pgo_base::hash8;

/// Whether a profile's record may have the name.
#[tactic(auto, using(crate::proofs::RecordNames::record_none, crate::proofs::RecordNames::record_some))]
pub(crate) fn is_record_name(name: &[u8]) -> bool
    ensures { result ≡ spec.is_record_name name.now }
{
    if name.is_empty() {
        return false;
    }
    let first = name[0];
    are_record_bytes(name)
        && (!(first == b' ' || (first == b':' || first == b'#'))
            && (!ends_blank(name) && !are_digits(name)))
}

fn are_record_bytes(name: &[u8]) -> bool
    ensures { result ≡ list_all spec.is_record_byte name.now }
{
    name.iter().all(|b| is_record_byte(*b))
}

fn is_record_byte(b: u8) -> bool
    ensures { result ≡ spec.is_record_byte b }
{
    32 <= b && b <= 126
}

fn are_digits(name: &[u8]) -> bool
    ensures { result ≡ list_all is_ascii_digit name.now }
{
    name.iter().all(|b| b.is_ascii_digit())
}

#[tactic(auto, using(crate::proofs::RecordNames::last_blank))]
fn ends_blank(name: &[u8]) -> bool
    ensures { result ≡ spec.ends_blank name.now }
{
    if name.is_empty() {
        return false;
    }
    name[name.len() - 1] == b' '
}

/// Whether the text names a record and has the hash.
#[tactic(auto, unfolding(ir_rules::specs::Initialisers::has_hash))]
pub(crate) fn has_hash(hash: u64, text: Option<&[u8]>) -> bool
    ensures { result ≡ spec.has_hash hash (option_copied text.entry) }
{
    match text {
        Some(bytes) => is_record_name(bytes) && hash8(bytes) == hash,
        None => false,
    }
}

/// Whether a unit may have so many counters.
#[tactic(auto, unfolding(ir_rules::specs::Intrinsics::is_counter_total))]
pub(crate) fn is_counter_total(n: u64) -> bool
    ensures { result ≡ intrinsics.is_counter_total n }
{
    1 <= n && n <= 1_048_576
}
