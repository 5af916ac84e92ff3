// An outcome's words: the kind, and the values in their order. Start at `put_outcome`.
// Meets specs/AnswerWords.antt; the order of the values is that of `values_of` of answers.
ghost use Rattle.std.specs.Prelude.{◌≡◌, ◌≤◌, ◌∷◌};
ghost use Rattle.answers.specs.Layout.{kind_at, values_most};
ghost use Rattle.answer_words.specs.AnswerWords.{aborted, outcome_put, put_from, translation_in};

use answers::{ANSWER_WORDS, KIND_AT, Outcome, Translation, VALUES_AT};

// The kinds; any other number stands for no answer. Any number may stand where a kind
// does, and what it stands for then is part of the promise of `outcome_of`: so they are numbers.
pub const TRANSLATE: u64 = 1;

pub const BYPASS: u64 = 2;

pub const BYPASS_GLOBAL: u64 = 3;

pub const ABORT: u64 = 4;

pub const QUIET: u64 = 5;

pub const UNSERVED: u64 = 6;

// The values as those of a translation.
pub fn translation_in(words: &[u64; ANSWER_WORDS]) -> Translation
    ensures { result ≡ translation_in words.now }
{
    let ste = words[VALUES_AT + 0];
    let cd = words[VALUES_AT + 1];
    let asid = words[VALUES_AT + 2];
    let t0sz = words[VALUES_AT + 3];
    let tg0 = words[VALUES_AT + 4];
    let epd0 = words[VALUES_AT + 5];
    let ips = words[VALUES_AT + 6];
    let ttb0 = words[VALUES_AT + 7];
    Translation {
        ste,
        cd,
        asid,
        t0sz,
        tg0,
        epd0,
        ips,
        ttb0,
    }
}

// An abort by its event: one of a failed fetch has the address that was wanted.
#[tactic(auto, unfolding(crate::specs::AnswerWords::aborted))]
pub fn aborted(event: u64, address: u64) -> Outcome
    ensures { result ≡ aborted event address }
{
    if answers::is_fetch(event) {
        return Outcome::Fault(event, address);
    }
    Outcome::Abort(event)
}

// A kind, and its values in their order.
fn put<const N: usize>(words: &mut [u64; ANSWER_WORDS], kind: u64, values: [u64; N])
    requires { N ≤ values_most }
    ensures { words.new ≡ put_from words.old (kind ∷ values.entry) kind_at }
{
    words[KIND_AT] = kind;
    for i in 0..N {
        words[VALUES_AT + i] = values[i];
    }
}

// Puts an outcome before the list that words hold.
#[tactic(auto, unfolding(crate::specs::AnswerWords::outcome_put))]
pub fn put_outcome(words: &mut [u64; ANSWER_WORDS], outcome: Outcome)
    ensures { words.new ≡ outcome_put words.old outcome }
{
    match outcome {
        Outcome::Translate(t) => put(
            words,
            TRANSLATE,
            [t.ste, t.cd, t.asid, t.t0sz, t.tg0, t.epd0, t.ips, t.ttb0],
        ),
        Outcome::Bypass(ste) => put(words, BYPASS, [ste]),
        Outcome::BypassGlobal => put(words, BYPASS_GLOBAL, []),
        Outcome::Abort(event) => put(words, ABORT, [event]),
        Outcome::Fault(event, address) => put(words, ABORT, [event, address]),
        Outcome::Quiet => put(words, QUIET, []),
        Outcome::Unserved(case) => put(words, UNSERVED, [case]),
    }
}
