// How names are spelled.
ghost use Rattle.std.specs.Prelude.{◌≡◌, ◌++◌, OnOk};
ghost use Rattle.std.specs.Char.{is_ascii_digit};
ghost use Rattle.std.specs.List.{list_all};
ghost use Rattle.ir_tree.specs.Spelling as spec;

use pgo_base::NoMemory;

/// Whether the byte begins a word: a letter, `$`, `.` or `_`.
#[tactic(auto, unfolding(crate::specs::Spelling::is_word_first))]
pub fn is_word_first(b: u8) -> bool
    ensures { result ≡ spec.is_word_first b }
{
    b.is_ascii_alphabetic() || b == b'$' || b == b'.' || b == b'_'
}

/// Whether the byte begins a name without quotes: one that begins a word, or `-`.
#[tactic(auto, unfolding(crate::specs::Spelling::is_name_first))]
pub fn is_name_first(b: u8) -> bool
    ensures { result ≡ spec.is_name_first b }
{
    is_word_first(b) || b == b'-'
}

/// Whether a name without quotes may have the byte: one that begins a name, or a digit.
#[tactic(auto, unfolding(crate::specs::Spelling::is_name_byte))]
pub fn is_name_byte(b: u8) -> bool
    ensures { result ≡ spec.is_name_byte b }
{
    is_name_first(b) || b.is_ascii_digit()
}

/// Whether a name in quotes may have the byte: a printable one other than `"`, `#`, `:` and `\`.
#[tactic(auto, unfolding(crate::specs::Spelling::is_quotable))]
pub fn is_quotable(b: u8) -> bool
    ensures { result ≡ spec.is_quotable b }
{
    b.is_ascii_graphic() && !(b == b'"' || b == b'#' || b == b':' || b == b'\\')
}

fn are_name_bytes(name: &[u8]) -> bool
    ensures { result ≡ list_all spec.is_name_byte name.now }
{
    name.iter().all(|b| is_name_byte(*b))
}

fn are_quotable(name: &[u8]) -> bool
    ensures { result ≡ list_all spec.is_quotable name.now }
{
    name.iter().all(|b| is_quotable(*b))
}

fn are_digits(name: &[u8]) -> bool
    ensures { result ≡ list_all is_ascii_digit name.now }
{
    name.iter().all(|b| b.is_ascii_digit())
}

/// Whether the name needs no quotes (LLVM Language Reference, "Identifiers").
#[tactic(auto, unfolding(crate::specs::Spelling::is_plain))]
pub fn is_plain(name: &[u8]) -> bool
    ensures { result ≡ spec.is_plain name.now }
{
    !name.is_empty() && is_name_first(name[0]) && are_name_bytes(name)
}

/// Whether the name is digits alone.
#[tactic(auto, unfolding(crate::specs::Spelling::is_digits))]
pub fn is_digits(name: &[u8]) -> bool
    ensures { result ≡ spec.is_digits name.now }
{
    !name.is_empty() && are_digits(name)
}

/// Whether a parameter, label or result may have the name.
#[tactic(auto, unfolding(crate::specs::Spelling::is_local_name))]
pub fn is_local_name(name: &[u8]) -> bool
    ensures { result ≡ spec.is_local_name name.now }
{
    !name.is_empty() && are_quotable(name)
}

/// Whether a global variable or function may have the name: digits alone are no such name.
#[tactic(auto, unfolding(crate::specs::Spelling::is_global_name))]
pub fn is_global_name(name: &[u8]) -> bool
    ensures { result ≡ spec.is_global_name name.now }
{
    is_local_name(name) && !are_digits(name)
}

fn push_quoted(text: &mut Vec<u8>, name: &[u8]) -> Result<(), NoMemory>
    ensures { OnOk result (text.new.items ≡ text.old.items ++ spec.quoted name.now) }
{
    text.push(b'"')?;
    text.extend_from_slice(name)?;
    text.push(b'"')?;
    Ok(())
}

/// Appends a name as it is written behind `@`: in quotes where it is not plain.
#[tactic(auto, unfolding(crate::specs::Spelling::global_text))]
pub fn push_global_name(text: &mut Vec<u8>, name: &[u8]) -> Result<(), NoMemory>
    ensures { OnOk result (text.new.items ≡ text.old.items ++ spec.global_text name.now) }
{
    if is_plain(name) {
        text.extend_from_slice(name)?;
        return Ok(());
    }
    push_quoted(text, name)
}

/// Appends a name as it is written behind `%`: in quotes where it is neither plain nor digits alone.
#[tactic(auto, unfolding(crate::specs::Spelling::local_text))]
pub fn push_local_name(text: &mut Vec<u8>, name: &[u8]) -> Result<(), NoMemory>
    ensures { OnOk result (text.new.items ≡ text.old.items ++ spec.local_text name.now) }
{
    if is_plain(name) || is_digits(name) {
        text.extend_from_slice(name)?;
        return Ok(());
    }
    push_quoted(text, name)
}
