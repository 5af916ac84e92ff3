// The C interface's calls, on numbers, byte slices and word arrays, which `llobatelh_c` exports by these names. Start at `llobatelh_lookup`.
// Meets specs/Calls.antt. include/llobatelh.h declares them for C and says what each word is; the calls on a book are in book_calls.rt.
// No call asks anything of its numbers; a refused call leaves every byte and word.
#![tactic(auto)]

ghost use Rattle.std.specs.Prelude.{◌≡◌};
ghost use Rattle.registers.specs.Words.{registers_from};
ghost use Rattle.ids.specs.Numbers.{request_from};
ghost use Rattle.lookup.specs.Lookup.{LooksUp, looked_up};
ghost use Rattle.lookup.specs.Part.{ste_at};
ghost use Rattle.llobatelh.specs.Calls.{part_says, recorded_says, said_says};

use answers::{ANSWER_WORDS, Refusal};
use ids::Request;
use memory_image::Memory;
use registers::{REGISTER_WORDS, Registers};

pub mod book_calls;

// Where no STE is handed back.
const NO_PART: u64 = u64::MAX;

// A new lookup: 0 and the answer's words; or refusal 1, 2 or 3.
pub fn llobatelh_lookup(
    registers: &[u32; REGISTER_WORDS],
    strtab_base: u64,
    base: u64,
    memory: &[u8],
    stream: u32,
    given: u8,
    substream: u64,
    answer: &mut [u64; ANSWER_WORDS],
) -> u64
    ensures { LooksUp (looked_up (registers_from registers.now strtab_base) base memory.now (request_from stream given substream)) answer.old result answer.new }
{
    let said = lookup::look_by_numbers(
        answer,
        registers,
        strtab_base,
        base,
        memory,
        stream,
        given,
        substream,
    );
    number_of(said)
}

// 0, or a refusal's number.
#[tactic(auto, unfolding(crate::specs::Calls::said_says))]
fn number_of(said: Result<(), Refusal>) -> u64
    ensures { result ≡ said_says said }
{
    match said {
        Ok(()) => 0,
        Err(refusal) => refusal.number(),
    }
}

// Where in the memory the STE of a request starts, 64 bytes; or NO_PART where none is handed back.
#[tactic(auto, using(crate::proofs::CallsLaws::part_at, crate::proofs::CallsLaws::part_none))]
pub fn llobatelh_ste_part(
    registers: &[u32; REGISTER_WORDS],
    strtab_base: u64,
    base: u64,
    memory: &[u8],
    stream: u32,
    given: u8,
    substream: u64,
) -> u64
    ensures { result ≡ part_says (ste_at (registers_from registers.now strtab_base) base memory.now (request_from stream given substream)) }
{
    let regs = Registers::from_words(registers, strtab_base);
    let request = Request::from_numbers(stream, given, substream);
    let lent = Memory {
        base,
        bytes: memory,
    };
    match lookup::part::ste_at(regs, lent, request) {
        Some(place) => place as u64,
        None => NO_PART,
    }
}

// Whether an abort's event is recorded: 1 or 0.
#[tactic(auto, using(crate::proofs::CallsLaws::recorded_so, crate::proofs::CallsLaws::recorded_not))]
pub fn llobatelh_is_recorded(registers: &[u32; REGISTER_WORDS], strtab_base: u64, event: u64) -> u64
    ensures { result ≡ recorded_says (registers_from registers.now strtab_base) event }
{
    let regs = Registers::from_words(registers, strtab_base);
    if answers::is_recorded(regs, event) {
        return 1;
    }
    0
}
