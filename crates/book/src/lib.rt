// The book of kept answers: open, ask, notice. Start at `ask`.
// Meets specs/Book.antt, over the words of book_words. A refused call leaves every word. An ask into an answer's words is in
// into.rt.
#![tactic(auto)]

ghost use Rattle.std.specs.Prelude.{◌≡◌};
ghost use Rattle.book.specs.Book.{Asks, Noticed, Opened};
ghost use Rattle.book.specs.Into.{asked_of};

use answers::{ANSWER_WORDS, Outcome, Pieces, Refusal};
use book_words::{BOOK_WORDS, SLOTS_MOST};
use ids::Request;
use into::Kept;
use memory_image::{Extent, Memory};
use registers::Registers;
use strike::Edited;

pub mod into;
mod strike;

// What an ask gives that is not refused: the answer, and whether it was kept.
#[derive(Clone, Copy)]
pub enum Reply {
    KeptBefore(Outcome),
    NewlyKept(Outcome),
    NotKept(Outcome),
}

// An ask's reply, or why it says no, with the descriptors that its answer was read from.
#[derive(Clone, Copy)]
pub struct Asked {
    pub reply: Result<Reply, Refusal>,
    pub list: Pieces,
}

// Opens a book: refusals 1, 2 and 4. It sets every word.
pub fn open(
    book: &mut [u64; BOOK_WORDS],
    registers: Registers,
    extent: Extent,
    slots: u64,
) -> Result<(), Refusal>
    ensures { Opened registers extent slots book.old result book.new }
{
    if registers.refused() {
        return Err(Refusal::Registers);
    }
    if extent.refused() {
        return Err(Refusal::Memory);
    }
    if slots == 0 {
        return Err(Refusal::Slots);
    }
    if (SLOTS_MOST as u64) < slots {
        return Err(Refusal::Slots);
    }
    book_words::fill(book, registers, extent, slots);
    Ok(())
}

// Asks the book: refusals 7, 6 and 3. A kept answer comes from its slot; any other from a new lookup,
// which is kept in the lowest empty slot where there is one.
pub fn ask(book: &mut [u64; BOOK_WORDS], memory: Memory, request: Request) -> Asked
    ensures { Asks book.old memory.entry.base memory.entry.bytes.now request result book.new }
{
    let mut words = [0u64; ANSWER_WORDS];
    let said = into::ask_into(&mut words, book, memory, request);
    let outcome = answer_words::outcome_of(&words);
    let list = answer_words::list_of(&words);
    asked_of(said, outcome, list)
}

// What an ask's words stand for, by what was said of them.
#[tactic(auto, unfolding(crate::specs::Into::asked_of))]
fn asked_of(said: Result<Kept, Refusal>, outcome: Outcome, list: Pieces) -> Asked
    ensures { result ≡ asked_of said outcome list }
{
    match said {
        Ok(Kept::Before) => Asked {
            reply: Ok(Reply::KeptBefore(outcome)),
            list,
        },
        Ok(Kept::Newly) => Asked {
            reply: Ok(Reply::NewlyKept(outcome)),
            list,
        },
        Ok(Kept::Not) => Asked {
            reply: Ok(Reply::NotKept(outcome)),
            list,
        },
        Err(refusal) => Asked {
            reply: Err(refusal),
            list,
        },
    }
}

// Takes a notice that bytes were edited: refusals 7 and 5. It strikes each kept answer that was read from
// a descriptor sharing an address with it, and no other.
#[tactic(auto, using(crate::proofs::NoticeLaws::notice_malformed, crate::proofs::NoticeLaws::notice_start, crate::proofs::NoticeLaws::notice_end, crate::proofs::NoticeLaws::notice_done))]
pub fn notice(book: &mut [u64; BOOK_WORDS], start: u64, size: u64) -> Result<(), Refusal>
    ensures { Noticed book.old start size result book.new }
{
    if book_words::well::is_malformed(&*book) {
        return Err(Refusal::Malformed);
    }
    if memory_image::ADDRESS_TOP < start {
        return Err(Refusal::Notice);
    }
    if memory_image::ADDRESS_TOP - start < size {
        return Err(Refusal::Notice);
    }
    strike::strike_all(book, Edited { start, size });
    Ok(())
}
