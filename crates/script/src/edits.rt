// The lines that edit the memory: `write` and `fill`. `place_of` meets specs/Place.antt.
ghost use Rattle.std.specs.Prelude.{◌≡◌, ◌<◌};
ghost use Rattle.script.specs.Place.{place_rule};

use crate::Said;
use crate::reasons::{Reason, both, number_in, pairs_in};
use memory_image::Extent;

// `write ADDRESS HEX`
pub fn write(line: &[u8], lent: Extent) -> Result<Said<'_>, Reason> {
    let address = number_in(words::nth(line, 1), u64::MAX);
    put(address, Ok(1), words::nth(line, 2), lent)
}

// `fill ADDRESS COUNT HEX`
pub fn fill(line: &[u8], lent: Extent) -> Result<Said<'_>, Reason> {
    let address = number_in(words::nth(line, 1), u64::MAX);
    let times = number_in(words::nth(line, 2), u64::MAX);
    put(address, times, words::nth(line, 3), lent)
}

// The bytes of a word, put at an address so many times.
fn put(
    address: Result<u64, Reason>,
    times: Result<u64, Reason>,
    word: &[u8],
    lent: Extent,
) -> Result<Said<'_>, Reason> {
    let (address, times) = both(address, times)?;
    let pairs = pairs_in(word)?;
    if times == 0 {
        return Ok(Said::Nothing);
    }
    let bytes = (pairs.len() / 2) as u64;
    let offset = place_of(lent, address, times, bytes).ok_or(Reason::OutsideMemory)?;
    Ok(Said::Put {
        offset,
        times,
        pairs,
    })
}

// Where so many bytes, so many times, lie from an address on, if they all lie in the lent memory. It
// computes no sum and no product, so it is exact where these pass 2^64.
#[tactic(auto, using(crate::proofs::PlaceLaws::place_before, crate::proofs::PlaceLaws::place_after, crate::proofs::PlaceLaws::place_past, crate::proofs::PlaceLaws::place_there))]
fn place_of(lent: Extent, address: u64, times: u64, bytes: u64) -> Option<u64>
    requires { 0 < times }
    ensures { result ≡ place_rule lent.base lent.length address times bytes }
{
    let offset = address.checked_sub(lent.base)?;
    let room = lent.length.checked_sub(offset)?;
    if room / times < bytes {
        return None;
    }
    Some(offset)
}
