// Where the STE that a request reaches lies in the memory, by the lookup's promise alone: it is the first descriptor of 64
// bytes on the list. Meets specs/Part.antt.
ghost use Rattle.std.specs.Prelude.{◌≡◌};
ghost use Rattle.answers.specs.Layout.{pieces_most};
ghost use Rattle.lookup.specs.Part.{ste_at, ste_from};

use answers::{PIECES_MOST, Pieces};
use ids::Request;
use memory_image::Memory;
use registers::Registers;

// Where the first piece of 64 bytes lies, and nowhere where there is none.
#[tactic(auto, unfolding(crate::specs::Part::ste_from))]
fn ste_from(base: u64, list: Pieces) -> Option<usize>
    ensures { result ≡ ste_from base list.piece pieces_most 0 }
{
    for i in 0..PIECES_MOST {
        let piece = list.piece[i];
        if piece.length == 64 {
            return Some(piece.address.saturating_sub(base) as usize);
        }
    }
    None
}

// Where the STE of a request lies, and nowhere where none is fetched or the lookup refuses.
#[tactic(auto, using(crate::proofs::PartLaws::listed_at))]
pub fn ste_at(registers: Registers, memory: Memory, request: Request) -> Option<usize>
    ensures { result ≡ ste_at registers memory.entry.base memory.entry.bytes.now request }
{
    let looked = super::lookup(registers, memory, request);
    ste_from(memory.base, looked.list)
}
