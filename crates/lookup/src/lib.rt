// The whole lookup, and the STE that a request reaches. Start at `lookup`.
// Meets specs/Lookup.antt and specs/Part.antt. What it reads it reads through `answers::read`.
#![tactic(auto)]

ghost use Rattle.std.specs.Prelude.{◌≡◌};
ghost use Rattle.ids.specs.Numbers.{request_from};
ghost use Rattle.registers.specs.Words.{registers_from};
ghost use Rattle.lookup.specs.Lookup.{LooksInto, looked_up};
ghost use Rattle.lookup.specs.Part.{SteHanded, ste_at};

use answers::{ANSWER_WORDS, Outcome, Pieces, Refusal};
use ids::Request;
use memory_image::Memory;
use registers::{REGISTER_WORDS, Registers};

pub mod part;
mod walk;

// What a lookup answers, or why it says no, with the descriptors that it read, in order.
#[derive(Clone, Copy)]
pub struct Looked {
    pub answer: Result<Outcome, Refusal>,
    pub list: Pieces,
}

// What a stream gets, by the registers and the tables in memory: a refusal (1, 2 or 3, the first that
// applies), or the answer of docs/RULES.md with its list.
pub fn lookup(registers: Registers, memory: Memory, request: Request) -> Looked
    ensures { result ≡ looked_up registers memory.entry.base memory.entry.bytes.now request }
{
    let mut words = [0u64; ANSWER_WORDS];
    match look_into(&mut words, registers, memory, request) {
        Ok(()) => Looked {
            answer: Ok(answer_words::outcome_of(&words)),
            list: answer_words::list_of(&words),
        },
        Err(refusal) => Looked {
            answer: Err(refusal),
            list: Pieces::none(),
        },
    }
}

// The same into an answer's words: all of them; or a refusal, and the words as they were. This is the quick form: no
// answer goes by value.
pub fn look_into(
    words: &mut [u64; ANSWER_WORDS],
    registers: Registers,
    memory: Memory,
    request: Request,
) -> Result<(), Refusal>
    ensures { LooksInto (looked_up registers memory.entry.base memory.entry.bytes.now request) words.old result words.new }
{
    let narrow = registers.words();
    look_by_numbers(
        words,
        &narrow,
        registers.strtab_base,
        memory.base,
        memory.bytes,
        request.stream.number,
        request.given(),
        request.number(),
    )
}

// The same of what C lends, number by number: the values are put together here and nowhere before. A caller that does it stores them, and the walk
// waits for them (docs/PERFORMANCE.md).
pub fn look_by_numbers(
    words: &mut [u64; ANSWER_WORDS],
    narrow: &[u32; REGISTER_WORDS],
    strtab_base: u64,
    base: u64,
    bytes: &[u8],
    stream: u32,
    given: u8,
    substream: u64,
) -> Result<(), Refusal>
    ensures { LooksInto (looked_up (registers_from narrow.now strtab_base) base bytes.now (request_from stream given substream)) words.old result words.new }
{
    let registers = Registers::from_words(narrow, strtab_base);
    if registers.refused() {
        return Err(Refusal::Registers);
    }
    let memory = Memory { base, bytes };
    if memory.refused() {
        return Err(Refusal::Memory);
    }
    let request = Request::from_numbers(stream, given, substream);
    if request.refused() {
        return Err(Refusal::Substream);
    }
    walk::answer(words, registers, memory, request);
    Ok(())
}

// The 64 bytes of the STE that a request reaches, as that very part of the memory; empty where none is
// fetched or the lookup refuses. It gives no number.
#[tactic(auto, using(crate::proofs::PartLaws::ste_part_ways))]
pub fn ste_part<'a>(registers: Registers, memory: Memory<'a>, request: Request) -> &'a [u8]
    ensures { SteHanded memory.entry.bytes result (ste_at registers memory.entry.base memory.entry.bytes.now request) }
{
    let bytes = memory.bytes;
    let Some(place) = part::ste_at(registers, memory, request) else {
        return &bytes[0..0];
    };
    let end = place + 64;
    &bytes[place..end]
}
