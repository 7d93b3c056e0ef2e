// From bytes to tokens.
ghost use Rattle.std.specs.Prelude.{◌≡◌, ◌≤◌, max, length, drop};
ghost use Rattle.lang.specs.Ahead.{ahead};
ghost use Rattle.lang.specs.Base.{same};
ghost use Rattle.lang.specs.Instr.{name_at, number_at};
ghost use Rattle.lang.specs.Kinds.{Nonempty};
ghost use Rattle.lang.specs.Tokens.{tokens};

mod bytes;
mod kinds;
mod words;

use crate::token::Token;
use kinds::{decimal, kind};
use words::{run_end, skip, word_end};

// The token at hand: the bytes from `start` up to `end`.
#[derive(Clone, Copy, PartialEq, Eq, Debug)]
pub struct Cursor {
    pub start: usize,
    pub end: usize,
    pub token: Token,
}

// The first token that begins at `from` or behind it.
pub fn scan(text: &[u8], from: usize) -> Cursor
    ensures ahead { ahead text.now result ≡ tokens (drop from text.now) }
    ensures start { from ≤ result.start }
    ensures order { result.start ≤ result.end }
    ensures within { result.end ≤ max from (length text.now) }
    ensures nonempty { Nonempty result.token result.start result.end }
{
    let start = skip(text, from);
    if start >= text.len() {
        return Cursor {
            start,
            end: start,
            token: Token::End,
        };
    }
    let end = word_end(text, start);
    let token = kind(&text[start..end]);
    Cursor { start, end, token }
}

// The name or number that begins at `at`.
pub fn name(text: &[u8], at: usize) -> &[u8]
    ensures { result.now ≡ name_at text.now at }
{
    if at < text.len() {
        &text[at..run_end(text, at)]
    } else {
        &[]
    }
}

// The number that is written at `at`; 0 where none is, as the definition has it.
pub fn number_at(text: &[u8], at: usize) -> u64
    ensures { result ≡ number_at text.now at }
{
    decimal(name(text, at)).unwrap_or(0)
}

// Whether the name at `at` is these bytes.
#[tactic(auto, using(crate::proofs::Sameness::pointwise_same))]
pub fn has_name(text: &[u8], at: usize, word: &[u8]) -> bool
    ensures { result ≡ same (name_at text.now at) word.now }
{
    name(text, at) == word
}

// Whether the names at `a` and `b` are the same.
#[tactic(auto, using(crate::proofs::Sameness::pointwise_same))]
pub fn same_name(text: &[u8], a: usize, b: usize) -> bool
    ensures { result ≡ same (name_at text.now a) (name_at text.now b) }
{
    has_name(text, a, name(text, b))
}
