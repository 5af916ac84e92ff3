// The texts of the cells: the columns' names, and what a held slot says of its request and its outcome.
// Meets specs/Cells.antt.
ghost use Rattle.report_cells.specs.Text.{Spells};
ghost use Rattle.report_cells.specs.Cells.{abort_text, address_text, event_text, header_text, outcome_text, stream_text, substream_text};

use super::Cell;
use super::text::{HEX_LOWER, HEX_UPPER, decimal, digits, word};
use answers::Outcome;
use ids::Request;
use registers::Registers;

// How many digits a StreamID, a SubstreamID, an event and an address have.
const STREAM_DIGITS: usize = 8;

const SUBSTREAM_DIGITS: usize = 5;

const EVENT_DIGITS: usize = 2;

const ADDRESS_DIGITS: usize = 16;

// The columns' names.
#[tactic(auto, using(crate::proofs::TextLaws::spells_as), unfolding(crate::specs::Cells::header_text))]
pub fn header(column: usize) -> Cell
    ensures { Spells result (header_text column) }
{
    match column {
        0 => word(b"slot"),
        1 => word(b"stream"),
        2 => word(b"substream"),
        3 => word(b"outcome"),
        4 => word(b"event"),
        _ => word(b"address"),
    }
}

// Lower-case hexadecimal digits.
#[tactic(auto, unfolding(crate::specs::Cells::stream_text))]
pub fn stream(request: Request) -> Cell
    ensures { Spells result (stream_text request) }
{
    digits(HEX_LOWER, STREAM_DIGITS, request.stream.number as u64)
}

// Lower-case hexadecimal digits, or `-`.
#[tactic(auto, using(crate::proofs::TextLaws::spells_as), unfolding(crate::specs::Cells::substream_text))]
pub fn substream(request: Request) -> Cell
    ensures { Spells result (substream_text request) }
{
    match request.substream {
        None => word(b"-"),
        Some(id) => digits(HEX_LOWER, SUBSTREAM_DIGITS, id.number),
    }
}

// The outcome in one word.
#[tactic(auto, using(crate::proofs::TextLaws::spells_as), unfolding(crate::specs::Cells::outcome_text))]
pub fn kind(registers: Registers, outcome: Outcome) -> Cell
    ensures { Spells result (outcome_text registers outcome) }
{
    match outcome {
        Outcome::Translate(_) => word(b"translate"),
        Outcome::Bypass(_) => word(b"bypass"),
        Outcome::BypassGlobal => word(b"bypass"),
        Outcome::Abort(number) => abort(answers::is_recorded(registers, number)),
        Outcome::Fault(_, _) => word(b"abort"),
        Outcome::Quiet => word(b"quiet"),
        Outcome::Unserved(_) => word(b"unserved"),
    }
}

// An abort, by whether its event is recorded.
#[tactic(auto, using(crate::proofs::TextLaws::spells_as), unfolding(crate::specs::Cells::abort_text))]
fn abort(recorded: bool) -> Cell
    ensures { Spells result (abort_text recorded) }
{
    if recorded {
        return word(b"abort");
    }
    word(b"unrecorded")
}

// Upper-case hexadecimal digits for an event, the unserved number, or `-`.
#[tactic(auto, using(crate::proofs::TextLaws::spells_as), unfolding(crate::specs::Cells::event_text))]
pub fn event(outcome: Outcome) -> Cell
    ensures { Spells result (event_text outcome) }
{
    match outcome {
        Outcome::Translate(_) => word(b"-"),
        Outcome::Bypass(_) => word(b"-"),
        Outcome::BypassGlobal => word(b"-"),
        Outcome::Abort(number) => digits(HEX_UPPER, EVENT_DIGITS, number),
        Outcome::Fault(number, _) => digits(HEX_UPPER, EVENT_DIGITS, number),
        Outcome::Quiet => word(b"-"),
        Outcome::Unserved(case) => decimal(case),
    }
}

// Lower-case hexadecimal digits for the address that a failed fetch wanted, or `-`.
#[tactic(auto, using(crate::proofs::TextLaws::spells_as), unfolding(crate::specs::Cells::address_text))]
pub fn address(outcome: Outcome) -> Cell
    ensures { Spells result (address_text outcome) }
{
    match outcome {
        Outcome::Translate(_) => word(b"-"),
        Outcome::Bypass(_) => word(b"-"),
        Outcome::BypassGlobal => word(b"-"),
        Outcome::Abort(_) => word(b"-"),
        Outcome::Fault(_, wanted) => digits(HEX_LOWER, ADDRESS_DIGITS, wanted),
        Outcome::Quiet => word(b"-"),
        Outcome::Unserved(_) => word(b"-"),
    }
}
