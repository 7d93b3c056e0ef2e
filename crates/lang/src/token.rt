// The words that a text is made of.
ghost use Rattle.std.specs.Prelude.{◌≡◌, ◌∷◌};
ghost use Rattle.lang.specs.Base.{same, Word};
ghost use Rattle.lang.specs.Tokens.{every_fixed, spelled, spelling};

use std::fmt;

// Words and signs that are always spelled the same.
#[derive(Clone, Copy, PartialEq, Eq, Debug)]
pub enum Fixed {
    Width,
    Proc,
    Pre,
    Post,
    Measure,
    Var,
    If,
    Else,
    While,
    Keep,
    Check,
    Any,
    Old,
    Yes,
    Not,
    And,
    Or,
    All,
    LeftParen,
    RightParen,
    LeftBracket,
    RightBracket,
    LeftBrace,
    RightBrace,
    Comma,
    Semicolon,
    Gets,
    Equals,
    Implies,
    LessThan,
    AtMost,
    Plus,
    Minus,
    Times,
    Over,
    Percent,
}

// A token by its kind. Which name or number it is, is told by the place where it stands.
#[derive(Clone, Copy, PartialEq, Eq, Debug)]
pub enum Token {
    Fixed(Fixed),
    Name,
    Number,
    // what stands in no text
    Stray,
    // the text is at its end
    End,
}

impl Fixed {
    // Those that begin with a byte, so that looking a word up asks three of them at most.
    pub(crate) fn beginning_with(first: u8) -> &'static [Fixed]
        ensures { (w : Word) → spelling result.now (first ∷ w) ≡ spelling every_fixed (first ∷ w) }
    {
        match first {
            b'w' => &[Fixed::Width, Fixed::While],
            b'p' => &[Fixed::Proc, Fixed::Pre, Fixed::Post],
            b'l' => &[Fixed::Measure],
            b'v' => &[Fixed::Var],
            b'i' => &[Fixed::If],
            b'e' => &[Fixed::Else],
            b'k' => &[Fixed::Keep],
            b'c' => &[Fixed::Check],
            b'a' => &[Fixed::Any, Fixed::And, Fixed::All],
            b'o' => &[Fixed::Old, Fixed::Or],
            b'y' => &[Fixed::Yes],
            b'n' => &[Fixed::Not],
            b'(' => &[Fixed::LeftParen],
            b')' => &[Fixed::RightParen],
            b'[' => &[Fixed::LeftBracket],
            b']' => &[Fixed::RightBracket],
            b'{' => &[Fixed::LeftBrace],
            b'}' => &[Fixed::RightBrace],
            b',' => &[Fixed::Comma],
            b';' => &[Fixed::Semicolon],
            b'=' => &[Fixed::Gets, Fixed::Equals, Fixed::Implies],
            b'<' => &[Fixed::LessThan, Fixed::AtMost],
            b'+' => &[Fixed::Plus],
            b'-' => &[Fixed::Minus],
            b'*' => &[Fixed::Times],
            b'/' => &[Fixed::Over],
            b'%' => &[Fixed::Percent],
            _ => &[],
        }
    }

    pub fn is(self, other: Fixed) -> bool
        ensures { result ≡ same (spelled self) (spelled other) }
    {
        self == other
    }

    #[tactic(auto, using(crate::proofs::Sameness::pointwise_same))]
    pub fn is_spelled(self, word: &[u8]) -> bool
        ensures { result ≡ same (spelled self) word.now }
    {
        self.spelling().as_bytes() == word
    }

    pub fn spelling(self) -> &'static str
        ensures { result.now ≡ spelled self }
    {
        match self {
            Fixed::Width => "width",
            Fixed::Proc => "proc",
            Fixed::Pre => "pre",
            Fixed::Post => "post",
            Fixed::Measure => "less",
            Fixed::Var => "var",
            Fixed::If => "if",
            Fixed::Else => "else",
            Fixed::While => "while",
            Fixed::Keep => "keep",
            Fixed::Check => "check",
            Fixed::Any => "any",
            Fixed::Old => "old",
            Fixed::Yes => "yes",
            Fixed::Not => "not",
            Fixed::And => "and",
            Fixed::Or => "or",
            Fixed::All => "all",
            Fixed::LeftParen => "(",
            Fixed::RightParen => ")",
            Fixed::LeftBracket => "[",
            Fixed::RightBracket => "]",
            Fixed::LeftBrace => "{",
            Fixed::RightBrace => "}",
            Fixed::Comma => ",",
            Fixed::Semicolon => ";",
            Fixed::Gets => "=",
            Fixed::Equals => "==",
            Fixed::Implies => "=>",
            Fixed::LessThan => "<",
            Fixed::AtMost => "<=",
            Fixed::Plus => "+",
            Fixed::Minus => "-",
            Fixed::Times => "*",
            Fixed::Over => "/",
            Fixed::Percent => "%",
        }
    }
}

// By hand: a word prints as its spelling.
impl fmt::Display for Fixed {
    fn fmt<W: fmt::Write>(&self, f: &mut fmt::Formatter<W>) -> fmt::Result {
        f.write_str(self.spelling())
    }
}
