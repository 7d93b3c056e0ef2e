// From a text to a program in lent words.
#![tactic(auto)]

ghost use Rattle.std.specs.Prelude.{◌≡◌, ◌*◌, ◌≤◌, List, [], map, length, Some, None, MatchResult};
ghost use Rattle.lent.specs.Tables.{items, capacity};
ghost use Rattle.lang.specs.Code.{code_procs};
ghost use Rattle.lang.specs.Grammar.{reads};
ghost use Rattle.lang.specs.Instr.{instr};
ghost use Rattle.lang.specs.Layout.{node};
ghost use Rattle.lang.specs.Syntax.{Proc};
ghost use Rattle.parse.specs.Layout.{open_part};
ghost use Rattle.parse.specs.declared.ReadError.TheVariants.{NoText, Few};
ghost use Rattle.parse.specs.Whole.{ReadsAs, Refused};

use lang::code::Node;
use lang::program::Program;
use lang::scan::scan;
use lang::width::Width;
use lent::{Table, split};

mod declarations;
mod expression;
mod formula;
mod names;
mod open;
mod parts;
mod procedures;
mod reader;
pub mod refusal;
mod simple;
mod statements;

use open::Open;
use reader::Reader;
use refusal::NoText;
use thiserror::Error;

// Why no program was read.
#[derive(Clone, Copy, Debug, PartialEq, Eq, Error)]
pub enum ReadError {
    #[error(transparent)]
    NoText(NoText),
    #[error("too few words were lent")]
    Few,
}

// By hand, since what `read` promises rests on what these give.
impl From<NoText> for ReadError {
    ghost from_gives = { λ e r. r ≡ NoText e };

    fn from(e: NoText) -> ReadError {
        ReadError::NoText(e)
    }
}

impl From<lent::Few> for ReadError {
    ghost from_gives = { λ _ r. r ≡ Few };

    fn from(_e: lent::Few) -> ReadError {
        ReadError::Few
    }
}

// The program that the text reads as, in the words of the table `code`.
fn read_into<'a>(
    text: &'a [u8],
    code: Table<'a, Node>,
    pending: Table<'a, Open>,
) -> Result<Program<'a>, NoText>
    requires empty { (items node code ≡ []) × (items open_part pending ≡ []) }
    requires room { (2 * length text.now ≤ capacity code) × (length text.now ≤ capacity pending) }
    ensures { MatchResult result (λ p. ReadsAs text.now p) (λ _. reads text.now ≡ None) }
{
    let mut reader = Reader {
        text,
        cursor: scan(text, 0),
        code,
        pending,
    };
    let width = reader.program()?;
    Ok(Program {
        text,
        width: Width(width),
        code: reader.code.freeze(),
    })
}

// The program that the text reads as, in the words: four for each byte hold its nodes, and two what is open meanwhile.
pub fn read<'a>(text: &'a [u8], words: &'a mut [u64]) -> Result<Program<'a>, ReadError>
    ensures { MatchResult result (λ p. ReadsAs text.now p) (λ e. Refused text.now (length words.old) e) }
{
    let n = text.len();
    if n > words.len() / 6 {
        return Err(ReadError::Few);
    }
    let (front, back) = split(words, 4 * n)?;
    Ok(read_into(text, Table::new(front), Table::new(back))?)
}
