// Whether an outcome and a list are such as a lookup gives. Start at `is_outcome` and `is_list`.
// Meets specs/Proper.antt of answers.
ghost use Rattle.std.specs.Prelude.{◌≡◌};
ghost use Rattle.answers.specs.Proper.{proper_fields, listed_event, listed_case, proper_outcome, ends_below, proper_pieces};

use answers::{Outcome, Pieces, Translation};
use memory_image::Piece;

// The fields of a translation have their widths: 16, 6, 2 and 1 bits.
#[tactic(auto, unfolding(answers::specs::Proper::proper_fields))]
fn has_widths(t: Translation) -> bool
    ensures { result ≡ proper_fields t }
{
    if 1 << 16 <= t.asid {
        return false;
    }
    if 1 << 6 <= t.t0sz {
        return false;
    }
    if 1 << 2 <= t.tg0 {
        return false;
    }
    t.epd0 < 1 << 1
}

// One of the rules' event numbers, of those without an address.
#[tactic(auto, unfolding(answers::specs::Proper::listed_event))]
fn is_event(event: u64) -> bool
    ensures { result ≡ listed_event event }
{
    matches!(
        event,
        answers::C_BAD_STREAMID
            | answers::C_BAD_STE
            | answers::F_STREAM_DISABLED
            | answers::C_BAD_SUBSTREAMID
            | answers::C_BAD_CD
    )
}

// One of the rules' unserved cases.
#[tactic(auto, unfolding(answers::specs::Proper::listed_case))]
fn is_case(case: u64) -> bool
    ensures { result ≡ listed_case case }
{
    matches!(
        case,
        answers::STAGE_2 | answers::VMSA_32 | answers::STREAM_WORLD
    )
}

#[tactic(auto, unfolding(answers::specs::Proper::proper_outcome))]
pub fn is_outcome(outcome: Outcome) -> bool
    ensures { result ≡ proper_outcome outcome }
{
    match outcome {
        Outcome::Translate(t) => has_widths(t),
        Outcome::Bypass(_) => true,
        Outcome::BypassGlobal => true,
        Outcome::Abort(event) => is_event(event),
        Outcome::Fault(event, _) => answers::is_fetch(event),
        Outcome::Quiet => true,
        Outcome::Unserved(n) => is_case(n),
    }
}

// A piece ends at or below the top of all addresses.
fn ends_below(piece: Piece) -> bool
    ensures { result ≡ ends_below piece }
{
    let address = piece.address;
    let length = piece.length;
    if memory_image::ADDRESS_TOP < address {
        return false;
    }
    length <= memory_image::ADDRESS_TOP - address
}

// At most as many pieces as a list has, and none that is counted ends past the top of all addresses.
pub fn is_list(list: Pieces) -> bool
    ensures { result ≡ proper_pieces list }
{
    let count = list.count as usize;
    if answers::PIECES_MOST < count {
        return false;
    }
    let counted = &list.piece[..count];
    counted.iter().all(|piece| ends_below(*piece))
}
