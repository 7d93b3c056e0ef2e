// Where in a text a byte stands, as people count.
ghost use Rattle.std.specs.Prelude.{◌≡◌, take};
ghost use Rattle.lang.specs.Positions.{position_behind};

// Line and column, both from 1.
#[derive(Clone, Copy, PartialEq, Eq, Debug)]
pub struct Position {
    pub line: usize,
    pub column: usize,
}

// Where the byte at an index stands, or the end of the text if there are no more.
pub fn position_of(text: &[u8], at: usize) -> Position
    ensures { result ≡ position_behind (take at text.now) }
{
    let mut p = Position { line: 1, column: 1 };
    let front = &text[..at.min(text.len())];
    for b in front {
        if *b == b'\n' {
            p.line += 1;
            p.column = 1;
        } else {
            p.column += 1;
        }
    }
    p
}
