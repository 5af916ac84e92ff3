// The memory that a script lends and edits.
use memory_image::{Extent, Memory};

// The program's bytes, of which the first `extent.length` are lent.
#[derive(Drop)]
pub struct Held<'a> {
    bytes: &'a mut [u8],
    extent: Extent,
}

impl<'a> Held<'a> {
    // None are lent at first.
    pub fn new(bytes: &'a mut [u8]) -> Self {
        let extent = Extent { base: 0, length: 0 };
        Held { bytes, extent }
    }

    // Where the lent bytes lie.
    pub fn extent(&self) -> Extent {
        self.extent
    }

    // What is lent.
    pub fn lent(&self) -> Memory<'_> {
        let n = self.bytes.len().min(self.extent.length as usize);
        Memory {
            base: self.extent.base,
            bytes: &self.bytes[..n],
        }
    }

    // Lends bytes anew, all of them 0.
    pub fn lend(&mut self, extent: Extent) {
        self.bytes.fill(0);
        self.extent = extent;
    }

    // Puts the bytes that the pairs of a word say, from a place on, so many times. No byte that is not
    // lent is within reach.
    pub fn put(&mut self, offset: u64, times: u64, pairs: &[u8]) {
        let n = self.bytes.len().min(self.extent.length as usize);
        let lent = &mut self.bytes[..n];
        // It counts by one, as no product of what a script says is sure to fit.
        let mut at = offset as usize;
        for _ in 0..times {
            for k in 0..pairs.len() / 2 {
                if at < lent.len() {
                    lent[at] = words::numbers::pair(pairs, k);
                    at += 1;
                }
            }
        }
    }
}
