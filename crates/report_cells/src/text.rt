// The text of a cell: words, and numbers in digits. Meets specs/Text.antt.
ghost use Rattle.std.specs.Prelude.{◌≤◌, ◌<◌, length};
ghost use Rattle.report_cells.specs.Text.{Spells, cell_most, decimal_text, digits, slot_text};

use super::{CELL_MOST, Cell};

// The digits of each base, as many as it has.
pub const HEX_LOWER: &[u8] = b"0123456789abcdef";

pub const HEX_UPPER: &[u8] = b"0123456789ABCDEF";

const DECIMAL: &[u8] = b"0123456789";

// A text as it is.
pub fn word(text: &[u8]) -> Cell
    requires { length text.now ≤ cell_most }
    ensures { Spells result text.now }
{
    let count = text.len();
    let mut byte = [0u8; CELL_MOST];
    byte[..count].copy_from_slice(text);
    Cell { count, byte }
}

// The last w digits of a number, in the base that the letters are the digits of.
pub fn digits(letters: &[u8], w: usize, n: u64) -> Cell
    requires { (0 < length letters.now) × (w ≤ cell_most) }
    ensures { Spells result (digits letters.now (length letters.now) w n) }
{
    let base = letters.len() as u64;
    let mut byte = [0u8; CELL_MOST];
    let mut rest = n;
    for j in (0..w).rev() {
        byte[j] = letters[(rest % base) as usize];
        rest /= base;
    }
    Cell { count: w, byte }
}

// A number below 100, in decimal, without leading zeros.
#[tactic(auto, using(crate::proofs::TextLaws::spells_as), unfolding(crate::specs::Text::decimal_text))]
pub fn decimal(n: u64) -> Cell
    ensures { Spells result (decimal_text n) }
{
    if n < 10 {
        return digits(DECIMAL, 1, n);
    }
    digits(DECIMAL, 2, n)
}

// A slot, below 1,000.
#[tactic(auto, using(crate::proofs::TextLaws::spells_as), unfolding(crate::specs::Text::slot_text))]
pub fn slot(n: u64) -> Cell
    ensures { Spells result (slot_text n) }
{
    if n < 100 {
        return decimal(n);
    }
    digits(DECIMAL, 3, n)
}
