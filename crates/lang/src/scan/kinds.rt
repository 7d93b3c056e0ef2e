// Of which kind a word is.
ghost use Rattle.std.specs.Prelude.{◌≡◌, ◌+◌, ◌-◌, ◌*◌, ◌<◌, [], ◌∷◌, length};
ghost use Rattle.lang.specs.Base.{when};
ghost use Rattle.lang.specs.Kinds.{below_limit, meant};
ghost use Rattle.lang.specs.Tokens.{every_fixed, is_digit, spelling, token, written};

use super::bytes::{is_digit, is_letter};
use crate::token::{Fixed, Token};

// The first of these that is spelled so.
fn spelled_among(these: &[Fixed], word: &[u8]) -> Option<Fixed>
    ensures { result ≡ spelling these.now word.now }
{
    these.iter().copied().find(|f| f.is_spelled(word))
}

// Words and signs that are always spelled the same.
fn fixed_word(word: &[u8]) -> Option<Fixed>
    ensures { result ≡ spelling every_fixed word.now }
{
    let first = *word.first()?;
    spelled_among(Fixed::beginning_with(first), word)
}

// A number with one more digit; none where the byte is no digit or the number does not fit.
fn with_digit(n: u64, b: u8) -> Option<u64>
    ensures { result ≡ when (is_digit b) (below_limit (n * 10 + (b - 48))) }
{
    if is_digit(b) {
        n.checked_mul(10)?.checked_add(u64::from(b - b'0'))
    } else {
        None
    }
}

// The number that a word is written for, if it is below 2^64.
pub fn decimal(word: &[u8]) -> Option<u64>
    ensures { result ≡ written word.now }
{
    let mut n = 0;
    for b in word {
        n = with_digit(n, *b)?;
    }
    Some(n)
}

// What a word is: a number, one of those that are always spelled the same, a name, or none of these.
pub fn kind(word: &[u8]) -> Token
    requires { 0 < length word.now }
    ensures { meant word.now result ≡ token word.now ∷ [] }
{
    if is_digit(word[0]) {
        return match decimal(word) {
            Some(_) => Token::Number,
            None => Token::Stray,
        };
    }
    match fixed_word(word) {
        Some(f) => Token::Fixed(f),
        None if is_letter(word[0]) => Token::Name,
        None => Token::Stray,
    }
}
