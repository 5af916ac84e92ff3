// An answer's words: what they stand for, and how an outcome and a list get into them. Start at `outcome_of`.
// Meets specs/AnswerWords.antt; where each word stands is in answers. The outcome's words are in outcome.rt; what a kept
// answer must have is tested in proper.rt.
#![tactic(auto)]

ghost use Rattle.std.specs.Prelude.{◌≡◌};
ghost use Rattle.answer_words.specs.AnswerWords.{list_of, outcome_of, stands, words_of};

use answers::{
    ANSWER_WORDS, COUNT_AT, KIND_AT, LIST_WORDS, Outcome, PIECES_AT, PIECES_MOST, Pieces, VALUES_AT,
};
use memory_image::Piece;
use outcome::{ABORT, BYPASS, BYPASS_GLOBAL, TRANSLATE, UNSERVED};

pub mod outcome;
mod proper;

// The outcome that words stand for, by their kind; a quiet abort where that is none.
#[tactic(auto, unfolding(crate::specs::AnswerWords::outcome_of))]
pub fn outcome_of(words: &[u64; ANSWER_WORDS]) -> Outcome
    ensures { result ≡ outcome_of words.now }
{
    let kind = words[KIND_AT];
    let value = words[VALUES_AT];
    match kind {
        TRANSLATE => Outcome::Translate(outcome::translation_in(words)),
        BYPASS => Outcome::Bypass(value),
        BYPASS_GLOBAL => Outcome::BypassGlobal,
        ABORT => outcome::aborted(value, words[VALUES_AT + 1]),
        UNSERVED => Outcome::Unserved(value),
        _ => Outcome::Quiet,
    }
}

// The list that words hold.
#[tactic(auto, using(crate::proofs::ListLaws::list_of_ways))]
pub fn list_of(words: &[u64; ANSWER_WORDS]) -> Pieces
    ensures { result ≡ list_of words.now }
{
    let nothing = Piece {
        address: 0,
        length: 0,
    };
    let mut pieces = [nothing; PIECES_MOST];
    for (i, piece) in pieces.iter_mut().enumerate() {
        let at = PIECES_AT + 2 * i;
        let address = words[at];
        let length = words[at + 1];
        *piece = Piece { address, length };
    }
    let count = words[COUNT_AT];
    Pieces {
        count,
        piece: pieces,
    }
}

// Whether words stand for an answer: their kind is one, and the outcome and the list are such as a lookup gives.
#[tactic(auto, unfolding(crate::specs::AnswerWords::stands))]
pub fn is_answer(words: &[u64; ANSWER_WORDS]) -> bool
    ensures { result ≡ stands words.now }
{
    let kind = words[KIND_AT];
    if !matches!(kind, TRANSLATE..=UNSERVED) {
        return false;
    }
    let outcome = outcome_of(words);
    if !proper::is_outcome(outcome) {
        return false;
    }
    let list = list_of(words);
    proper::is_list(list)
}

// The answer that words stand for, as the words of that answer: those that its kind has no value for become 0. Word by word,
// as `book_words::block`.
pub fn give(kept: &[u64; ANSWER_WORDS], words: &mut [u64; ANSWER_WORDS])
    ensures { words.new ≡ words_of (outcome_of kept.now) (list_of kept.now) }
{
    *words = [0u64; ANSWER_WORDS];
    for j in 0..LIST_WORDS {
        words[COUNT_AT + j] = kept[COUNT_AT + j];
    }
    let outcome = outcome_of(kept);
    outcome::put_outcome(words, outcome);
}
