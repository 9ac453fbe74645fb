//! The classes of bytes that tokens are made of, apart from those of names.

ghost use Rattle.std.specs.Prelude.{◌≡◌};
ghost use Rattle.ir_lex.specs.Classes as class;

#[tactic(auto, unfolding(crate::specs::Classes::is_string_byte))]
pub(crate) fn is_string_byte(b: u8) -> bool
    ensures { result ≡ class.is_string_byte b }
{
    !(b == b'"' || b == b'\n')
}

#[tactic(auto, unfolding(crate::specs::Classes::is_blank))]
pub(crate) fn is_blank(b: u8) -> bool
    ensures { result ≡ class.is_blank b }
{
    b == b' ' || b == b'\t' || b == b'\n' || b == b'\r'
}

#[tactic(auto, unfolding(crate::specs::Classes::is_bracket))]
fn is_bracket(b: u8) -> bool
    ensures { result ≡ class.is_bracket b }
{
    b == b'(' || b == b')' || b == b'[' || b == b']' || b == b'{' || b == b'}'
}

#[tactic(auto, unfolding(crate::specs::Classes::is_sign))]
pub(crate) fn is_sign(b: u8) -> bool
    ensures { result ≡ class.is_sign b }
{
    is_bracket(b)
        || b == b'*'
        || b == b','
        || b == b':'
        || b == b'<'
        || b == b'='
        || b == b'>'
        || b == b'|'
}
