// Writing a piece to its end.
ghost use Rattle.std.specs.Prelude.{ℕ, ◌≤◌, IfNone, IfSome, [], length, take};
ghost use Rattle.std.specs.Bool.{OnTrue};
ghost use Rattle.std.specs.Io.KnownBytes.{Appends};

use std::io::{ErrorKind, Write};

/// Writes the whole piece. It gives false where the writer failed, or took nothing of what was left, and a front of the
/// piece was then written. An interrupted write is tried again.
pub fn write_whole<W: Write>(writer: &mut W, piece: &[u8]) -> bool
    ensures whole { OnTrue result (Appends (W.contents writer.old) (W.contents writer.new) piece.now) }
    ensures front { (n : ℕ) × Appends (W.contents writer.old) (W.contents writer.new) (take n piece.now) }
{
    let mut done = 0;
    'writes: for _ in 0..u64::MAX {
        if done == piece.len() {
            return true;
        }
        match write_some(writer, &piece[done..]) {
            Some(count) => done += count,
            None => return false,
        }
    }
    false
}

// One write: how many bytes it took, 0 where it was interrupted, and None where it failed or would never take any.
fn write_some<W: Write>(writer: &mut W, rest: &[u8]) -> Option<usize>
    ensures within { IfSome result (λ n. n ≤ length rest.now) }
    ensures some { IfSome result (λ n. Appends (W.contents writer.old) (W.contents writer.new) (take n rest.now)) }
    ensures none { IfNone result (Appends (W.contents writer.old) (W.contents writer.new) []) }
{
    match writer.write(rest) {
        Ok(0) => None,
        Ok(count) => Some(count),
        Err(error) if error.kind() == ErrorKind::Interrupted => Some(0),
        Err(_) => None,
    }
}
