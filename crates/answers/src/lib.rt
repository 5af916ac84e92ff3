// What a lookup answers, and the list of the descriptors that are read; why a call says no is in refusals.rt. Start at
// `Outcome`. Meets specs/Outcome.antt, which has the rules' numbers, and specs/Pieces.antt; `read` meets `Reads` of
// specs/Walk.antt. Where the words of an answer stand is in specs/Layout.antt too.
#![tactic(auto)]

ghost use Rattle.std.specs.Prelude.{◌≡◌};
ghost use Rattle.answers.specs.Outcome.{fetch_event, recorded};
ghost use Rattle.answers.specs.Pieces.{none, push_piece};
ghost use Rattle.answers.specs.Walk.{Reads};

use memory_image::{Fetched, Memory, Piece};
pub use refusals::Refusal;
use registers::Registers;

mod refusals;

// The events, by the standard's names. They are numbers, not an enum: `answer_words::outcome_of` says what any words stand
// for, whatever number is there, the claims speak of any event, and C asks `is_recorded` of any number.
pub const C_BAD_STREAMID: u64 = 0x02;

pub const F_STE_FETCH: u64 = 0x03;

pub const C_BAD_STE: u64 = 0x04;

pub const F_STREAM_DISABLED: u64 = 0x06;

pub const C_BAD_SUBSTREAMID: u64 = 0x08;

pub const F_CD_FETCH: u64 = 0x09;

pub const C_BAD_CD: u64 = 0x0A;

// What is not served, by numbers as any words may hold: stage 2, VMSAv8-32, StreamWorlds above EL1.
pub const STAGE_2: u64 = 20;

pub const VMSA_32: u64 = 21;

pub const STREAM_WORLD: u64 = 22;

// A stage 1 configuration: where it was found, and the fields of its CD as they are stored. `ips` is the
// effective size in bits.
#[derive(Clone, Copy)]
pub struct Translation {
    pub ste: u64,
    pub cd: u64,
    pub asid: u64,
    pub t0sz: u64,
    pub tg0: u64,
    pub epd0: u64,
    pub ips: u64,
    pub ttb0: u64,
}

#[derive(Clone, Copy)]
pub enum Outcome {
    Translate(Translation),
    // By the STE at this address.
    Bypass(u64),
    // Of every stream, while the SMMU is off.
    BypassGlobal,
    // With this event, which is not a failed fetch's.
    Abort(u64),
    // With the event of a failed fetch, and the address that it wanted.
    Fault(u64, u64),
    Quiet,
    // The named case that is not served.
    Unserved(u64),
}

// Whether an abort's event is recorded: 0x02 only if CR2.RECINVSID is 1.
#[tactic(auto, unfolding(crate::specs::Outcome::recorded))]
pub fn is_recorded(registers: Registers, event: u64) -> bool
    ensures { result ≡ recorded registers event }
{
    if event == C_BAD_STREAMID {
        return registers.rec_inv_sid() != 0;
    }
    true
}

// Whether an event is that of a fetch that fails: it comes with the address that was wanted, and no other does.
#[tactic(auto, unfolding(crate::specs::Outcome::fetch_event))]
pub fn is_fetch(event: u64) -> bool
    ensures { result ≡ fetch_event event }
{
    matches!(event, F_STE_FETCH | F_CD_FETCH)
}

// As many values as the longest outcome has.
pub const VALUES_MOST: usize = 8;

// The most descriptors that a lookup reads.
pub const PIECES_MOST: usize = 4;

// An answer's words: its kind, its values, the count of its list, and the address and the length of each piece.
pub const KIND_AT: usize = 0;

pub const VALUES_AT: usize = KIND_AT + 1;

pub const COUNT_AT: usize = VALUES_AT + VALUES_MOST;

pub const PIECES_AT: usize = COUNT_AT + 1;

// The words of a list: its count, and its pieces.
pub const LIST_WORDS: usize = 1 + 2 * PIECES_MOST;

pub const ANSWER_WORDS: usize = COUNT_AT + LIST_WORDS;

// The descriptors read, in order: the first `count` of the array. Zeros follow them, but in a list of words that
// something else wrote: whoever reads a list goes by its count. There is no allocator in the box, so it is an array and a
// count, and not a `Vec`.
#[derive(Clone, Copy)]
pub struct Pieces {
    pub count: u64,
    pub piece: [Piece; PIECES_MOST],
}

impl Pieces {
    #[tactic(auto, unfolding(crate::specs::Pieces::none))]
    pub fn none() -> Self
        ensures { result ≡ none }
    {
        let nothing = Piece {
            address: 0,
            length: 0,
        };
        let piece = [nothing; PIECES_MOST];
        Pieces { count: 0, piece }
    }
}

// One piece more on the list in an answer's words, or none where it is full.
#[tactic(auto, unfolding(crate::specs::Pieces::push_piece))]
pub fn push_piece(words: &mut [u64; ANSWER_WORDS], address: u64, length: u64)
    ensures { words.new ≡ push_piece words.old (record { address = address; length = length }) }
{
    let n = words[COUNT_AT] as usize;
    if n < PIECES_MOST {
        let at = PIECES_AT + 2 * n;
        let next = at + 1;
        words[at] = address;
        words[next] = length;
        words[COUNT_AT] = n as u64 + 1;
    }
}

// Fetches a descriptor of so many bytes at an address; where it is had, the list in an answer's words has one piece more.
#[inline(always)]
pub fn read(memory: Memory, address: u64, size: u64, words: &mut [u64; ANSWER_WORDS]) -> Fetched
    ensures { Reads memory.entry.base memory.entry.bytes.now address size words.old result words.new }
{
    let fetched = memory.fetch(address, size);
    if let Fetched::At(_) = fetched {
        push_piece(words, address, size);
    }
    fetched
}
