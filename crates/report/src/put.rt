// A line of the report: its length, and its bytes put into a lent buffer from a place on.
// Meets `Put` of specs/Report.antt.
ghost use Rattle.std.specs.Prelude.{◌≡◌, ◌+◌, ◌*◌, ◌≤◌, [], ◌∷◌, ◌++◌, length};
ghost use Rattle.report_cells.specs.Text.{cell_most};
ghost use Rattle.report_cells.specs.Cells.{columns, line_text};
ghost use Rattle.report.specs.Report.{Put};

use report_cells::Line;

// How many bytes a line has.
pub fn line_length(line: Line) -> usize
    ensures { (result ≡ length (line_text line)) × (result ≤ columns * (cell_most + 1)) }
{
    let mut sum = 0;
    for column in 0..report_cells::columns(line) {
        let cell = report_cells::cell_of(line, column);
        sum += cell.text().len() + 1;
    }
    sum
}

// A lent buffer, and where its next byte is put.
#[derive(Drop)]
pub struct Writer<'a> {
    pub out: &'a mut [u8],
    pub at: usize,
}

impl Writer<'_> {
    // Writes a line.
    pub fn put_line(&mut self, line: Line)
        requires { self.old.at + length (line_text line) ≤ length self.old.out.now }
        ensures same_reference { self.new.out.ghost_name ≡ self.old.out.ghost_name }
        ensures put { Put (line_text line) self.old.out.now self.old.at self.new.at self.new.out.now }
    {
        for column in 0..report_cells::columns(line) {
            let cell = report_cells::cell_of(line, column);
            self.put_cell(cell.text(), report_cells::ending(column));
        }
    }

    // Writes the text of a cell and the byte that ends it.
    fn put_cell(&mut self, text: &[u8], ending: u8)
        requires { self.old.at + length text.now + 1 ≤ length self.old.out.now }
        ensures same_reference { self.new.out.ghost_name ≡ self.old.out.ghost_name }
        ensures put { Put (text.now ++ (ending ∷ [])) self.old.out.now self.old.at self.new.at self.new.out.now }
    {
        let end = self.at + text.len();
        self.out[self.at..end].copy_from_slice(text);
        self.out[end] = ending;
        self.at = end + 1;
    }
}
