// The two kinds of id, and a request. Start at `Request`.
// Meets specs/Ids.antt, and for the word that a request is packed into specs/Packing.antt; a request as numbers is in numbers.rt.
#![tactic(auto)]

ghost use Rattle.std.specs.Prelude.{◌≡◌};
ghost use Rattle.ids.specs.Ids.{made_stream, made_substream, refusal3};
ghost use Rattle.ids.specs.Packing.{packed, unpacked};

mod numbers;

// Which device: any number of 32 bits.
#[derive(Clone, Copy)]
pub struct StreamId {
    pub number: u32,
}

// Which of a device's address spaces: a number of 20 bits. One that is wider can be made past the
// constructor, from whatever number a caller has; a request with it is refused with 3.
#[derive(Clone, Copy)]
pub struct SubstreamId {
    pub number: u64,
}

impl StreamId {
    pub const BITS: u64 = 32;

    // The id with that number, if it has no more than 32 bits: an `Option`, since a number has one way to be wrong.
    #[tactic(auto, unfolding(crate::specs::Ids::made_stream))]
    pub fn new(n: u64) -> Option<StreamId>
        ensures { result ≡ made_stream n }
    {
        if n < 1 << StreamId::BITS {
            Some(StreamId { number: n as u32 })
        } else {
            None
        }
    }
}

impl SubstreamId {
    pub const BITS: u64 = 20;

    // The id with that number, if it has no more than 20 bits; by itself, since the two ids are two types.
    #[tactic(auto, unfolding(crate::specs::Ids::made_substream))]
    pub fn new(n: u64) -> Option<SubstreamId>
        ensures { result ≡ made_substream n }
    {
        if n < 1 << SubstreamId::BITS {
            Some(SubstreamId { number: n })
        } else {
            None
        }
    }
}

// A request comes with a SubstreamID or without one: SubstreamID 0 and none are different requests.
#[derive(Clone, Copy)]
pub struct Request {
    pub stream: StreamId,
    pub substream: Option<SubstreamId>,
}

// One more than the width of a SubstreamID: the part of the word below the StreamID.
const PART_BITS: u64 = 21;

impl Request {
    // Refusal 3: a SubstreamID is given and is 2^20 or more.
    #[tactic(auto, unfolding(crate::specs::Ids::refusal3))]
    pub fn refused(self) -> bool
        ensures { result ≡ refusal3 self }
    {
        match self.substream {
            None => false,
            Some(id) => 1 << SubstreamId::BITS <= id.number,
        }
    }

    // The request as one word. Nothing of a request that is not refused is lost.
    #[tactic(auto, unfolding(crate::specs::Packing::packed))]
    pub fn pack(self) -> u64
        ensures { result ≡ packed self }
    {
        let above = self.stream.number as u64 * (1 << PART_BITS);
        match self.substream {
            None => above,
            Some(id) => {
                let number = bit_fields::low(id.number, SubstreamId::BITS);
                above + ((1 << SubstreamId::BITS) + number)
            }
        }
    }

    // The request that a word stands for, if any.
    #[tactic(auto, unfolding(crate::specs::Packing::unpacked))]
    pub fn unpack(word: u64) -> Option<Request>
        ensures { result ≡ unpacked word }
    {
        if 1 << (StreamId::BITS + PART_BITS) <= word {
            return None;
        }
        let above = bit_fields::high(word, PART_BITS);
        let part = bit_fields::low(word, PART_BITS);
        let stream = StreamId {
            number: above as u32,
        };
        if part == 0 {
            return Some(Request {
                stream,
                substream: None,
            });
        }
        if part < 1 << SubstreamId::BITS {
            return None;
        }
        let id = SubstreamId {
            number: part - (1 << SubstreamId::BITS),
        };
        Some(Request {
            stream,
            substream: Some(id),
        })
    }
}
