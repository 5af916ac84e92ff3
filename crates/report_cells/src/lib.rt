// What stands in each cell of the report, as bytes. Start at `cell_of`.
// Meets specs/Cells.antt; the digits and the words are those of specs/Text.antt.
#![tactic(auto)]

ghost use Rattle.std.specs.Prelude.{◌≡◌, ◌≤◌};
ghost use Rattle.placed.specs.From.{from};
ghost use Rattle.report_cells.specs.Text.{Spells, cell_most};
ghost use Rattle.report_cells.specs.Cells.{cell_text, columns_of, ending_of, kept_text};

use answers::Outcome;
use ids::Request;
use registers::Registers;

mod cells;
mod text;

// The most bytes that a cell has.
pub const CELL_MOST: usize = 16;

// How many cells a line has. A column is a number: the report goes through them in order, and no caller names one.
const COLUMNS: usize = 6;

// The text of a cell: the first `count` of the bytes. There is no allocator in the box, so it is no `String`.
#[derive(Clone, Copy)]
pub struct Cell {
    pub count: usize,
    pub byte: [u8; CELL_MOST],
}

impl Cell {
    // The bytes of its text.
    pub fn text(&self) -> &[u8]
        requires { self.now.count ≤ cell_most }
        ensures { result.now ≡ from self.now.byte self.now.count 0 }
    {
        &self.byte[..self.count]
    }
}

// What a slot holds, and what its outcome is read by.
#[derive(Clone, Copy)]
pub struct Entry {
    pub slot: u64,
    pub registers: Registers,
    pub request: Request,
    pub outcome: Outcome,
}

// A line of the report; an empty slot has none.
#[derive(Clone, Copy)]
pub enum Line {
    Nothing,
    Header,
    Kept(Entry),
}

// How many cells a line has: an empty slot's has none.
#[tactic(auto, unfolding(crate::specs::Cells::columns_of))]
pub fn columns(line: Line) -> usize
    ensures { result ≡ columns_of line }
{
    match line {
        Line::Nothing => 0,
        Line::Header => COLUMNS,
        Line::Kept(_) => COLUMNS,
    }
}

// The cell of a line in a column.
#[tactic(auto, using(crate::proofs::TextLaws::spells_as), unfolding(crate::specs::Cells::cell_text))]
pub fn cell_of(line: Line, column: usize) -> Cell
    ensures { Spells result (cell_text line column) }
{
    match line {
        Line::Nothing => text::word(b""),
        Line::Header => cells::header(column),
        Line::Kept(entry) => kept(entry, column),
    }
}

// What follows the cell in a column: a line feed after the last, a tab after the others.
#[tactic(auto, unfolding(crate::specs::Cells::ending_of))]
pub fn ending(column: usize) -> u8
    ensures { result ≡ ending_of column }
{
    if column == COLUMNS - 1 {
        return b'\n';
    }
    b'\t'
}

// The cell of a held slot in a column.
#[tactic(auto, using(crate::proofs::TextLaws::spells_as), unfolding(crate::specs::Cells::kept_text))]
fn kept(entry: Entry, column: usize) -> Cell
    ensures { Spells result (kept_text entry column) }
{
    let outcome = entry.outcome;
    match column {
        0 => text::slot(entry.slot),
        1 => cells::stream(entry.request),
        2 => cells::substream(entry.request),
        3 => cells::kind(entry.registers, outcome),
        4 => cells::event(outcome),
        _ => cells::address(outcome),
    }
}
