// Why a text is none.
use lang::token::Fixed;
use thiserror::Error;

// What was expected at the byte where reading a text went wrong.
#[derive(Clone, Copy, Debug, PartialEq, Eq, Error)]
pub enum Expected {
    #[error("`{0}`")]
    Token(Fixed),
    #[error("`{0}` or `{1}`")]
    Either(Fixed, Fixed),
    #[error("a name")]
    Name,
    #[error("a number below 2^64")]
    Number,
    #[error("a number, a name, `old` or `(`")]
    Operand,
    #[error("`==`, `<` or `<=`")]
    Comparison,
    #[error("a statement or `}}`: a name, `if`, `while`, `check` or `any`")]
    Statement,
    // of a row
    #[error("a length of 1 or more")]
    Length,
}

#[derive(Clone, Copy, Debug, PartialEq, Eq, Error)]
#[error("expected {expected}")]
pub struct NoText {
    pub at: usize,
    pub expected: Expected,
}
