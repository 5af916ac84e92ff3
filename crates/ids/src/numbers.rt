// A request as numbers, as a C caller hands it over, and back: C has no `Option`. Meets specs/Numbers.antt.
ghost use Rattle.std.specs.Prelude.{◌≡◌};
ghost use Rattle.ids.specs.Numbers.{given_of, number_of, request_from, substream_from};

use super::{Request, StreamId, SubstreamId};

// A SubstreamID is given where `given` is any number but 0.
fn substream_from(given: u8, number: u64) -> Option<SubstreamId>
    ensures { result ≡ substream_from given number }
{
    if given == 0 {
        return None;
    }
    Some(SubstreamId { number })
}

impl super::Request {
    // A request. A SubstreamID that is too large stays so, and is refused with 3.
    pub fn from_numbers(stream: u32, given: u8, number: u64) -> Request
        ensures { result ≡ request_from stream given number }
    {
        Request {
            stream: StreamId { number: stream },
            substream: substream_from(given, number),
        }
    }

    // Whether there is a SubstreamID: 1 or 0.
    pub fn given(self) -> u8
        ensures { result ≡ given_of self.substream }
    {
        match self.substream {
            None => 0,
            Some(_) => 1,
        }
    }

    // Its number, and 0 where there is none.
    pub fn number(self) -> u64
        ensures { result ≡ number_of self.substream }
    {
        match self.substream {
            None => 0,
            Some(id) => id.number,
        }
    }
}
