// Text in a lent buffer. Start at `Text`. Meets specs/Text.antt.
ghost use Rattle.std.specs.Prelude.{◌≡◌, ◌+◌, [], ◌∷◌, ◌++◌, length, take};
ghost use Rattle.lines.specs.Text.{filled_of, room_of};

use std::fmt;

// The text is the buffer's first `filled` bytes. Where the buffer is full, nothing more is put.
#[derive(Drop)]
pub struct Text<'a> {
    buffer: &'a mut [u8],
    filled: usize,
}

impl<'a> Text<'a> {
    // No text.
    pub fn new(buffer: &'a mut [u8]) -> Self
        ensures { (filled_of result ≡ []) × (result.buffer.now ≡ buffer.old) }
    {
        Text { buffer, filled: 0 }
    }

    // The bytes so far.
    pub fn filled(&self) -> &[u8]
        ensures { result.now ≡ filled_of self.now }
    {
        &self.buffer[..self.end()]
    }

    // How many bytes there is room for.
    pub fn room(&self) -> usize
        ensures { result ≡ room_of self.now }
    {
        self.buffer.len() - self.end()
    }

    // The buffer after the text, for whoever writes there and then calls `advance`.
    pub fn rest(&mut self) -> &mut [u8]
        ensures { length result.now ≡ room_of self.old }
    {
        let end = self.end();
        &mut self.buffer[end..]
    }

    // So many bytes of the rest are text now.
    pub fn advance(&mut self, n: usize)
        ensures { filled_of self.new ≡ take (length (filled_of self.old) + n) self.old.buffer.now }
    {
        self.filled = self.end().saturating_add(n);
    }

    // No text any more.
    pub fn clear(&mut self)
        ensures { filled_of self.new ≡ [] }
    {
        self.filled = 0;
    }

    // Where the rest begins: at the end of the text.
    fn end(&self) -> usize
        ensures { result ≡ length (filled_of self.now) }
    {
        self.filled.min(self.buffer.len())
    }

    // Some bytes, or those of them that there is room for.
    pub fn put(&mut self, bytes: &[u8])
        ensures { filled_of self.new ≡ take (length self.old.buffer.now) (filled_of self.old ++ bytes.now) }
    {
        let start = self.end();
        let n = bytes.len().min(self.room());
        let end = start + n;
        self.buffer[start..end].copy_from_slice(&bytes[..n]);
        self.filled = end;
    }

    // One byte, if there is room for it.
    pub fn push(&mut self, byte: u8)
        ensures { filled_of self.new ≡ take (length self.old.buffer.now) (filled_of self.old ++ byte ∷ []) }
    {
        if self.filled < self.buffer.len() {
            self.buffer[self.filled] = byte;
            self.filled += 1;
        }
    }
}

impl<'a> fmt::Write for Text<'a> {
    fn write_str(&mut self, s: &str) -> fmt::Result {
        self.put(s.as_bytes());
        Ok(())
    }
}
