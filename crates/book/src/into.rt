// An ask into an answer's words. Start at `ask_into`.
// Meets specs/Into.antt. It stands on the lookup's promise alone.
ghost use Rattle.std.specs.Prelude.{◌≡◌, ◌≤◌};
ghost use Rattle.book_words.specs.Layout.{slots_most};
ghost use Rattle.book.specs.Book.{new_lookup};
ghost use Rattle.book.specs.Into.{AsksInto, KeepsNew, KeepsWords, kept_number};

use answers::{ANSWER_WORDS, Refusal};
use book_words::BOOK_WORDS;
use ids::Request;
use memory_image::Memory;

// What an ask says of the answer that it gives. The numbers are those that a C caller is told; a refusal's is none of these.
#[derive(Clone, Copy, PartialEq, Eq)]
pub enum Kept {
    Before = 100,
    Newly = 101,
    Not = 102,
}

impl Kept {
    pub fn number(self) -> u64
        ensures { result ≡ kept_number self }
    {
        self as u64
    }
}

// Asks the book: what was said of the answer, and all of its words; or refusal 7, 6 or 3, and the words as they were.
pub fn ask_into(
    words: &mut [u64; ANSWER_WORDS],
    book: &mut [u64; BOOK_WORDS],
    memory: Memory,
    request: Request,
) -> Result<Kept, Refusal>
    ensures { AsksInto book.old memory.entry.base memory.entry.bytes.now request words.old result book.new words.new }
{
    if book_words::well::is_malformed(&*book) {
        return Err(Refusal::Malformed);
    }
    if book_words::is_other(&*book, memory.extent()) {
        return Err(Refusal::OtherMemory);
    }
    if request.refused() {
        return Err(Refusal::Substream);
    }
    let slots = book[0] as usize;
    let key = request.pack() + 1;
    let slot = book_words::first_from(&*book, key, slots);
    if slot < slots {
        let kept = book_words::block(&*book, slot);
        answer_words::give(&kept, words);
        return Ok(Kept::Before);
    }
    look_anew(words, book, memory, request, key, slots)
}

// A new lookup, by the book's registers, and its keeping.
fn look_anew(
    words: &mut [u64; ANSWER_WORDS],
    book: &mut [u64; BOOK_WORDS],
    memory: Memory,
    request: Request,
    key: u64,
    slots: usize,
) -> Result<Kept, Refusal>
    requires { slots ≤ slots_most }
    ensures { KeepsNew book.old key slots (new_lookup book.old memory.entry.base memory.entry.bytes.now request) words.old result book.new words.new }
{
    let registers = book_words::registers_of(&*book);
    lookup::look_into(&mut *words, registers, memory, request)?;
    Ok(keep(book, key, slots, &*words))
}

// Keeps an answer's words in the lowest empty slot, where there is one.
#[tactic(auto, using(crate::proofs::AskLaws::keep_kept, crate::proofs::AskLaws::keep_full))]
fn keep(book: &mut [u64; BOOK_WORDS], key: u64, slots: usize, answer: &[u64; ANSWER_WORDS]) -> Kept
    requires { slots ≤ slots_most }
    ensures { KeepsWords book.old key slots answer.now result book.new }
{
    let empty = book_words::first_from(&*book, 0, slots);
    if empty < slots {
        book_words::keep_at(book, empty, key, answer);
        return Kept::Newly;
    }
    Kept::Not
}
