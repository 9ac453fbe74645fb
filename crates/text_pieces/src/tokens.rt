// Tokens as they are written.
ghost use Rattle.std.specs.Prelude.{◌≡◌, ◌++◌, ◌<◌, OnOk, true};
ghost use Rattle.std.specs.List.{flat_map};
ghost use Rattle.ir_lex.specs.Tokens.{Number, Global, Local, Label, Bytes};
ghost use Rattle.text_pieces.specs.Written.{written, byte_text, escaped, hex_digit, is_escaped};

use ir_tree::{push_global_name, push_local_name};
use pgo_base::NoMemory;
use push_text::{push, push_number};

/// Appends `@` and the name of a global variable or function.
pub fn push_global(out: &mut Vec<u8>, name: &[u8]) -> Result<(), NoMemory>
    ensures { OnOk result (out.new.items ≡ out.old.items ++ written (Global name.now)) }
{
    push(out, b"@")?;
    push_global_name(out, name)
}

/// Appends `%` and the name of a parameter, result or block.
pub fn push_local(out: &mut Vec<u8>, name: &[u8]) -> Result<(), NoMemory>
    ensures { OnOk result (out.new.items ≡ out.old.items ++ written (Local name.now)) }
{
    push(out, b"%")?;
    push_local_name(out, name)
}

/// Appends the name of a block and `:`.
pub fn push_label(out: &mut Vec<u8>, name: &[u8]) -> Result<(), NoMemory>
    ensures { OnOk result (out.new.items ≡ out.old.items ++ written (Label name.now)) }
{
    push_local_name(out, name)?;
    push(out, b":")
}

/// Appends `-` and the number.
pub fn push_negative(out: &mut Vec<u8>, magnitude: u64) -> Result<(), NoMemory>
    ensures { OnOk result (out.new.items ≡ out.old.items ++ written (Number true magnitude)) }
{
    push(out, b"-")?;
    push_number(out, magnitude)
}

fn digit_of(d: u8) -> u8
    requires { d < 16 }
    ensures { result ≡ hex_digit d }
{
    if d < 10 { b'0' + d } else { b'7' + d }
}

#[tactic(auto, unfolding(crate::specs::Written::escaped))]
fn push_escaped(out: &mut Vec<u8>, b: u8) -> Result<(), NoMemory>
    ensures { OnOk result (out.new.items ≡ out.old.items ++ escaped b) }
{
    out.push(b'\\')?;
    out.push(digit_of(b / 16))?;
    out.push(digit_of(b % 16))?;
    Ok(())
}

fn needs_escape(b: u8) -> bool
    ensures { result ≡ is_escaped b }
{
    b < 32 || b == b'"' || b == b'\\' || b >= 127
}

#[tactic(auto, unfolding(crate::specs::Written::byte_text))]
fn push_byte(out: &mut Vec<u8>, b: u8) -> Result<(), NoMemory>
    ensures { OnOk result (out.new.items ≡ out.old.items ++ byte_text b) }
{
    if needs_escape(b) {
        return push_escaped(out, b);
    }
    out.push(b)?;
    Ok(())
}

fn push_content(out: &mut Vec<u8>, bytes: &[u8]) -> Result<(), NoMemory>
    ensures { OnOk result (out.new.items ≡ out.old.items ++ flat_map byte_text bytes.now) }
{
    for b in bytes {
        push_byte(out, *b)?;
    }
    Ok(())
}

/// Appends a string of bytes. Those from 0x20 to 0x7E other than `"` and `\` stand as they are, and others as `\` and two
/// hexadecimal digits.
pub fn push_byte_string(out: &mut Vec<u8>, bytes: &[u8]) -> Result<(), NoMemory>
    ensures { OnOk result (out.new.items ≡ out.old.items ++ written (Bytes bytes.now)) }
{
    push(out, b"c\"")?;
    push_content(out, bytes)?;
    push(out, b"\"")
}
