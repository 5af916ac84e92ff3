// The words of a line of a script: parted by one or more blanks, which are spaces and tabs. Every other
// byte belongs to a word. Start at `nth`. What a word says as a number or as bytes is in `numbers`.
// Meets specs/Words.antt.
#![tactic(auto)]

ghost use Rattle.std.specs.Prelude.{◌≡◌, [], get_or, length};
ghost use Rattle.words.specs.Words.{is_blank, without_return, words_of};

pub mod numbers;

// The line without the carriage return that it ends with, if it does.
#[tactic(auto, using(crate::proofs::WordsLaws::return_last, crate::proofs::WordsLaws::return_no))]
pub fn without_return(line: &[u8]) -> &[u8]
    ensures { result.now ≡ without_return line.now }
{
    line.strip_suffix(b"\r").unwrap_or(line)
}

// How many words there are.
pub fn count(line: &[u8]) -> usize
    ensures { result ≡ length (words_of line.now) }
{
    line.split(|byte| is_blank(*byte))
        .filter(|word| !word.is_empty())
        .count()
}

// The word with that number, counted from 0, and an empty part of the line where there is none.
pub fn nth(line: &[u8], k: usize) -> &[u8]
    ensures { result.now ≡ get_or (words_of line.now) k [] }
{
    line.split(|byte| is_blank(*byte))
        .filter(|word| !word.is_empty())
        .nth(k)
        .unwrap_or(&[])
}

// Whether a byte is a space or a tab.
fn is_blank(byte: u8) -> bool
    ensures { result ≡ is_blank byte }
{
    matches!(byte, b' ' | b'\t')
}
