// Where the words of a text begin and end.
ghost use Rattle.std.specs.Prelude.{◌≡◌, ◌+◌, ◌<◌, ◌≤◌, max, true, ◌∷◌, length, drop, slice_index};
ghost use Rattle.lang.specs.Instr.{name_at};
ghost use Rattle.lang.specs.Places.{begins, in_run, part};
ghost use Rattle.lang.specs.Tokens.{between, note, words_from};

use super::bytes::{is_blank, is_pair, is_run};

// The end of the run of letters and digits that begins at `from`.
pub fn run_end(text: &[u8], from: usize) -> usize
    requires { from ≤ length text.now }
    ensures { result ≡ from + length (name_at text.now from) }
{
    from + text[from..].iter().take_while(|b| is_run(**b)).count()
}

// The end of the line, for a note that `from` is in.
fn line_end(text: &[u8], from: usize) -> usize
    requires { from ≤ length text.now }
    ensures words { words_from between (drop result text.now) ≡ words_from note (drop from text.now) }
    ensures start { from ≤ result }
    ensures within { result ≤ length text.now }
{
    from + text[from..].iter().take_while(|b| **b != b'\n').count()
}

// Past blanks and notes, to the next word or the end of the text. By index: a blank is one byte, a note a line.
pub fn skip(text: &[u8], from: usize) -> usize
    ensures words { words_from between (drop result text.now) ≡ words_from between (drop from text.now) }
    ensures start { from ≤ result }
    ensures within { result ≤ max from (length text.now) }
    ensures word { result < length text.now → begins (slice_index text.now result) ≡ true }
{
    let mut i = from;
    while i < text.len() {
        if text[i] == b'#' {
            i = line_end(text, i + 1);
        } else if is_blank(text[i]) {
            i += 1;
        } else {
            return i;
        }
    }
    i
}

// The end of the word that begins at `from`.
pub fn word_end(text: &[u8], from: usize) -> usize
    requires inside { from < length text.now }
    requires word { begins (slice_index text.now from) ≡ true }
    ensures words { words_from between (drop from text.now) ≡ part text.now from result ∷ words_from between (drop result text.now) }
    ensures run { in_run (slice_index text.now from) ≡ true → part text.now from result ≡ name_at text.now from }
    ensures start { from < result }
    ensures within { result ≤ length text.now }
{
    if is_run(text[from]) {
        run_end(text, from)
    } else if from + 1 < text.len() && is_pair(text[from], text[from + 1]) {
        from + 2
    } else {
        from + 1
    }
}
