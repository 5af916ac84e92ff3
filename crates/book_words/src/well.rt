// Refusal 7: whether the words are those of a book. Start at `is_malformed`.
// Meets specs/Malformed.antt; the marks are those of specs/Marks.antt.
ghost use Rattle.std.specs.Prelude.{◌≡◌, ◌<◌};
ghost use Rattle.book_words.specs.Layout.{key_at, slots_most};
ghost use Rattle.book_words.specs.Malformed.{first_from, refusal7, registers_fit, slot_well, well_from};
ghost use Rattle.book_words.specs.Marks.{Marked, mark_of};

use super::{BOOK_WORDS, KEYS, REGISTERS_AT, SLOTS_MOST};
use ids::Request;
use registers::REGISTER_WORDS;

// The marks of refusal 7's search for equal keys: sixteen places for each slot, so that few keys share one. With no marks
// each slot's key would be looked for in all of them, at every ask.
const MARKS: usize = 16 * SLOTS_MOST;

// A key has its stream from bit 21 up.
const BELOW_STREAM: u64 = 1 << 21;

// Whether the words of the registers of 32 bits have no more than 32.
fn registers_fit(book: &[u64; BOOK_WORDS]) -> bool
    ensures { result ≡ registers_fit book.now }
{
    let words = &book[REGISTERS_AT..REGISTERS_AT + REGISTER_WORDS];
    words.iter().all(|word| bit_fields::in_bits(*word, 32))
}

// A key's place among the marks: streams that follow one another have places of their own.
fn mark_of(key: u64) -> usize
    ensures { result ≡ mark_of key }
{
    let mixed = key / BELOW_STREAM * 37 + key % BELOW_STREAM;
    (mixed % (MARKS as u64)) as usize
}

// The lowest slot with the key of slot i. A key that has no mark stands in no slot below i; for one that has, they are searched.
fn first_with(book: &[u64; BOOK_WORDS], i: usize, key: u64, marks: &[u8; MARKS]) -> usize
    requires { (i < slots_most) × ((key ≡ key_at book.now i) × Marked book.now i marks.now) }
    ensures { result ≡ first_from book.now key slots_most 0 }
{
    let place = mark_of(key);
    if marks[place] == 0 {
        return i;
    }
    super::first_from(book, key, SLOTS_MOST)
}

// Whether a slot is empty or holds what a slot may.
#[tactic(auto, using(crate::proofs::MalformedLaws::slot_empty, crate::proofs::MalformedLaws::slot_past, crate::proofs::MalformedLaws::slot_none, crate::proofs::MalformedLaws::slot_twice, crate::proofs::MalformedLaws::slot_answer))]
fn slot_well(book: &[u64; BOOK_WORDS], i: usize, marks: &[u8; MARKS]) -> bool
    requires { (i < slots_most) × Marked book.now i marks.now }
    ensures { result ≡ slot_well book.now i }
{
    let key = book[KEYS + i];
    if key == 0 {
        return true;
    }
    let slots = book[0];
    if slots <= i as u64 {
        return false;
    }
    let Some(_) = Request::unpack(key - 1) else {
        return false;
    };
    let first = first_with(book, i, key, marks);
    if first != i {
        return false;
    }
    let block = super::block(book, i);
    answer_words::is_answer(&block)
}

// Whether every slot is; the keys of those that were looked at have their marks.
fn slots_well(book: &[u64; BOOK_WORDS]) -> bool
    ensures { result ≡ well_from book.now slots_most 0 }
{
    let mut marks = [0u8; MARKS];
    for i in 0..SLOTS_MOST {
        if !slot_well(book, i, &marks) {
            return false;
        }
        let place = mark_of(book[KEYS + i]);
        marks[place] = 1;
    }
    true
}

// Refusal 7.
pub fn is_malformed(book: &[u64; BOOK_WORDS]) -> bool
    ensures { result ≡ refusal7 book.now }
{
    let slots = book[0];
    if slots == 0 {
        return true;
    }
    if (SLOTS_MOST as u64) < slots {
        return true;
    }
    if !registers_fit(book) {
        return true;
    }
    if super::registers_of(book).refused() {
        return true;
    }
    if super::extent_of(book).refused() {
        return true;
    }
    !slots_well(book)
}
