// What C links: each call of `llobatelh` under its name, with the same promise. Start at include/llobatelh.h, which declares it.
#![tactic(auto)]

ghost use Rattle.std.specs.Prelude.{◌≡◌};
ghost use Rattle.registers.specs.Words.{registers_from};
ghost use Rattle.ids.specs.Numbers.{request_from};
ghost use Rattle.lookup.specs.Lookup.{LooksUp, looked_up};
ghost use Rattle.lookup.specs.Part.{ste_at};
ghost use Rattle.book.specs.Into.{AsksBook};
ghost use Rattle.llobatelh.specs.Calls.{NoticesBook, OpensBook, ReportsBook, part_says, recorded_says};

use answers::ANSWER_WORDS;
use book_words::BOOK_WORDS;
use registers::REGISTER_WORDS;

// A new lookup: 0 and the answer's words; or refusal 1, 2 or 3.
#[unsafe(no_mangle)]
pub extern "C" fn llobatelh_lookup(
    registers: &[u32; REGISTER_WORDS],
    strtab_base: u64,
    base: u64,
    memory: &[u8],
    stream: u32,
    given: u8,
    substream: u64,
    answer: &mut [u64; ANSWER_WORDS],
) -> u64
    ensures { LooksUp (looked_up (registers_from registers.now strtab_base) base memory.now (request_from stream given substream)) answer.old result answer.new }
{
    llobatelh::llobatelh_lookup(
        registers,
        strtab_base,
        base,
        memory,
        stream,
        given,
        substream,
        answer,
    )
}

// Where in the memory the STE of a request starts, 64 bytes; or `NO_PART` where none is handed back.
#[unsafe(no_mangle)]
pub extern "C" fn llobatelh_ste_part(
    registers: &[u32; REGISTER_WORDS],
    strtab_base: u64,
    base: u64,
    memory: &[u8],
    stream: u32,
    given: u8,
    substream: u64,
) -> u64
    ensures { result ≡ part_says (ste_at (registers_from registers.now strtab_base) base memory.now (request_from stream given substream)) }
{
    llobatelh::llobatelh_ste_part(
        registers,
        strtab_base,
        base,
        memory,
        stream,
        given,
        substream,
    )
}

// Whether an abort's event is recorded: 1 or 0.
#[unsafe(no_mangle)]
pub extern "C" fn llobatelh_is_recorded(
    registers: &[u32; REGISTER_WORDS],
    strtab_base: u64,
    event: u64,
) -> u64
    ensures { result ≡ recorded_says (registers_from registers.now strtab_base) event }
{
    llobatelh::llobatelh_is_recorded(registers, strtab_base, event)
}

// Opens a book: 0 and every word of it; or refusal 1, 2 or 4.
#[unsafe(no_mangle)]
pub extern "C" fn llobatelh_open(
    book: &mut [u64; BOOK_WORDS],
    registers: &[u32; REGISTER_WORDS],
    strtab_base: u64,
    base: u64,
    length: u64,
    slots: u64,
) -> u64
    ensures { OpensBook (registers_from registers.now strtab_base) (record { base = base; length = length }) slots book.old result book.new }
{
    llobatelh::book_calls::llobatelh_open(book, registers, strtab_base, base, length, slots)
}

// Asks a book: 100 (kept before), 101 (newly kept) or 102 (not kept) and the answer's words; or refusal
// 7, 6 or 3.
#[unsafe(no_mangle)]
pub extern "C" fn llobatelh_ask(
    book: &mut [u64; BOOK_WORDS],
    base: u64,
    memory: &[u8],
    stream: u32,
    given: u8,
    substream: u64,
    answer: &mut [u64; ANSWER_WORDS],
) -> u64
    ensures { AsksBook book.old base memory.now (request_from stream given substream) answer.old result book.new answer.new }
{
    llobatelh::book_calls::llobatelh_ask(book, base, memory, stream, given, substream, answer)
}

// Tells a book that bytes were edited: 0; or refusal 7 or 5.
#[unsafe(no_mangle)]
pub extern "C" fn llobatelh_notice(book: &mut [u64; BOOK_WORDS], start: u64, size: u64) -> u64
    ensures { NoticesBook book.old start size result book.new }
{
    llobatelh::book_calls::llobatelh_notice(book, start, size)
}

// Writes a book as text: 0 and the text's length; or refusal 7 or 8.
#[unsafe(no_mangle)]
pub extern "C" fn llobatelh_report(
    book: &[u64; BOOK_WORDS],
    out: &mut [u8],
    length: &mut [u64; 1],
) -> u64
    ensures { ReportsBook book.now out.old length.old result out.new length.new }
{
    llobatelh::book_calls::llobatelh_report(book, out, length)
}
