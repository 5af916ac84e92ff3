// The request that a line names: that of `lookup`, `part` and `ask`.
use crate::reasons::{Reason, both, number_in};
use ids::{Request, StreamId, SubstreamId};

// `STREAM [SUBSTREAM]`, a line's second and third word.
pub fn request(line: &[u8], count: usize) -> Result<Request, Reason> {
    let stream = stream_in(words::nth(line, 1));
    if count < 3 {
        return Ok(Request {
            stream: stream?,
            substream: None,
        });
    }
    let substream = number_in(words::nth(line, 2), u64::MAX);
    let (stream, number) = both(stream, substream)?;
    Ok(Request {
        stream,
        substream: Some(SubstreamId { number }),
    })
}

// The StreamID that a word gives.
fn stream_in(word: &[u8]) -> Result<StreamId, Reason> {
    let number = number_in(word, u64::MAX)?;
    StreamId::new(number).ok_or(Reason::NumberTooLarge)
}
