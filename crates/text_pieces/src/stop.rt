// What stands directly behind a token.
ghost use Rattle.std.specs.Prelude.{◌≡◌, ◌++◌, ◌<◌, OnOk};
ghost use Rattle.text_pieces.specs.Written.{stop_text};
ghost use Rattle.text_pieces.specs.Lists.{stop_at};

use pgo_base::NoMemory;

/// What ends each token before it: a blank, the end of a line, or a sign that is a token by itself. A comma and an equals
/// sign have a blank behind them.
#[derive(Clone, Copy, Debug, PartialEq, Eq)]
pub enum Stop {
    Space,
    Line,
    Comma,
    Equals,
    OpenParen,
    CloseParen,
    OpenBracket,
    CloseBracket,
    OpenBrace,
    CloseBrace,
}

fn stop_text(stop: Stop) -> &'static [u8]
    ensures { result.now ≡ stop_text stop }
{
    match stop {
        Stop::Space => b" ",
        Stop::Line => b"\n",
        Stop::Comma => b", ",
        Stop::Equals => b"= ",
        Stop::OpenParen => b"(",
        Stop::CloseParen => b")",
        Stop::OpenBracket => b"[",
        Stop::CloseBracket => b"]",
        Stop::OpenBrace => b"{",
        Stop::CloseBrace => b"}",
    }
}

/// Appends what stands directly behind a token.
pub fn push_stop(out: &mut Vec<u8>, stop: Stop) -> Result<(), NoMemory>
    ensures { OnOk result (out.new.items ≡ out.old.items ++ stop_text stop) }
{
    out.extend_from_slice(stop_text(stop))?;
    Ok(())
}

/// What stands behind the item at a place of a list of so many: a comma where more follow.
pub fn stop_at(place: usize, count: usize, close: Stop) -> Stop
    requires { place < count }
    ensures { result ≡ stop_at place count close }
{
    if place + 1 < count {
        Stop::Comma
    } else {
        close
    }
}
