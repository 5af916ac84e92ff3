// The C interface's calls on a book. Start at `llobatelh_ask`.
// Meets specs/Calls.antt; include/llobatelh.h says what each word of a book is.
ghost use Rattle.std.specs.Prelude.{◌≡◌};
ghost use Rattle.registers.specs.Words.{registers_from};
ghost use Rattle.ids.specs.Numbers.{request_from};
ghost use Rattle.book.specs.Into.{AsksBook};
ghost use Rattle.llobatelh.specs.Calls.{NoticesBook, OpensBook, ReportsBook};

use answers::ANSWER_WORDS;
use book_words::BOOK_WORDS;
use ids::Request;
use memory_image::{Extent, Memory};
use registers::{REGISTER_WORDS, Registers};

// Opens a book: 0 and every word of it; or refusal 1, 2 or 4.
pub fn llobatelh_open(
    book: &mut [u64; BOOK_WORDS],
    registers: &[u32; REGISTER_WORDS],
    strtab_base: u64,
    base: u64,
    length: u64,
    slots: u64,
) -> u64
    ensures { OpensBook (registers_from registers.now strtab_base) (record { base = base; length = length }) slots book.old result book.new }
{
    let regs = Registers::from_words(registers, strtab_base);
    let said = book::open(book, regs, Extent { base, length }, slots);
    super::number_of(said)
}

// Asks a book: 100 (kept before), 101 (newly kept) or 102 (not kept) and the answer's words; or refusal
// 7, 6 or 3.
pub fn llobatelh_ask(
    book: &mut [u64; BOOK_WORDS],
    base: u64,
    memory: &[u8],
    stream: u32,
    given: u8,
    substream: u64,
    answer: &mut [u64; ANSWER_WORDS],
) -> u64
    ensures { AsksBook book.old base memory.now (request_from stream given substream) answer.old result book.new answer.new }
{
    let lent = Memory {
        base,
        bytes: memory,
    };
    let request = Request::from_numbers(stream, given, substream);
    match book::into::ask_into(answer, book, lent, request) {
        Ok(kept) => kept.number(),
        Err(refusal) => refusal.number(),
    }
}

// Tells a book that bytes were edited: 0; or refusal 7 or 5.
pub fn llobatelh_notice(book: &mut [u64; BOOK_WORDS], start: u64, size: u64) -> u64
    ensures { NoticesBook book.old start size result book.new }
{
    let said = book::notice(book, start, size);
    super::number_of(said)
}

// Writes a book as text: 0 and the text's length; or refusal 7 or 8.
pub fn llobatelh_report(book: &[u64; BOOK_WORDS], out: &mut [u8], length: &mut [u64; 1]) -> u64
    ensures { ReportsBook book.now out.old length.old result out.new length.new }
{
    match report::report(book, out) {
        Ok(size) => {
            *length = [size as u64];
            0
        }
        Err(refused) => refused.number(),
    }
}
