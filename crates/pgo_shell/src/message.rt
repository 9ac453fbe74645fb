// The line that says how a command ended.
ghost use Rattle.std.specs.Prelude.{◌≡◌, ◌≤◌, ◌++◌, ℕ, [], length, take, unwrap_or};
ghost use Rattle.std.specs.Bool.{OnTrue};
ghost use Rattle.std.specs.Option.{option_map};
ghost use Rattle.pgo_shell.specs.Shell.{Front, error_line, said};

use crate::{Command, Stop};
use pgo_base::Sink;

/// Puts `pgo: `, the two parts and the line's end on the error output. Where it fails, a front of that was put.
pub fn say<E: Sink>(err: &mut E, start: &[u8], end: &[u8])
    ensures tells { E.tells err.old → E.tells err.new }
    ensures line { E.tells err.old → Front (error_line (start.now ++ end.now)) (E.bytes err.old) (E.bytes err.new) }
{
    if !put_piece(err, b"pgo: ") {
        return;
    }
    if !put_piece(err, start) {
        return;
    }
    if !put_piece(err, end) {
        return;
    }
    put_piece(err, b"\n");
}

// Puts a piece, and says whether all of it was put.
fn put_piece<E: Sink>(err: &mut E, piece: &[u8]) -> bool
    ensures tells { E.tells err.old → E.tells err.new }
    ensures whole { E.tells err.old → OnTrue result (E.bytes err.new ≡ E.bytes err.old ++ piece.now) }
    ensures front { E.tells err.old → (n : ℕ) × (n ≤ length piece.now) × (E.bytes err.new ≡ E.bytes err.old ++ take n piece.now) }
{
    err.put(piece).is_ok()
}

/// What the line of a stop says, in two parts.
pub fn parts_of<'a, C: Command>(command: &'a C, stop: &'a Stop) -> (&'a [u8], &'a [u8])
    ensures { result.0.now ++ result.1.now ≡ said (C.task command.now) stop.now }
{
    match stop {
        Stop::Refused { line } => (line.as_slice(), b"".as_slice()),
        Stop::Halted { line } => (line.as_slice(), b"".as_slice()),
        Stop::Read { index } => (
            b"cannot read ".as_slice(),
            bytes_of_name(command.read_name(*index)),
        ),
        Stop::Output => (b"cannot write output".as_slice(), b"".as_slice()),
        Stop::Write { index } => (
            b"cannot write ".as_slice(),
            bytes_of_name(command.write_name(*index)),
        ),
        Stop::NoMemory => (b"out of memory".as_slice(), b"".as_slice()),
    }
}

// The bytes of a name, or none.
fn bytes_of_name(name: Option<&str>) -> &[u8]
    ensures { result.now ≡ unwrap_or (option_map (λ text. text.now) name.entry) [] }
{
    match name {
        Some(text) => text.as_bytes(),
        None => &[],
    }
}
