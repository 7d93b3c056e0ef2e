// Which bytes are letters, digits and blanks.
ghost use Rattle.std.specs.Prelude.{◌≡◌};
ghost use Rattle.lang.specs.Places.{in_run, pair};
ghost use Rattle.lang.specs.Tokens.{is_blank, is_digit, is_letter};

pub fn is_digit(b: u8) -> bool
    ensures { result ≡ is_digit b }
{
    b.is_ascii_digit()
}

pub fn is_letter(b: u8) -> bool
    ensures { result ≡ is_letter b }
{
    b.is_ascii_alphabetic() || b == b'_'
}

// A byte of a name or a number.
pub fn is_run(b: u8) -> bool
    ensures { result ≡ in_run b }
{
    is_letter(b) || is_digit(b)
}

pub fn is_blank(b: u8) -> bool
    ensures { result ≡ is_blank b }
{
    matches!(b, b' ' | b'\n' | b'\r' | b'\t')
}

// Two bytes that are one sign.
pub fn is_pair(a: u8, b: u8) -> bool
    ensures { result ≡ pair a b }
{
    matches!((a, b), (b'=' | b'<', b'=') | (b'=', b'>'))
}
