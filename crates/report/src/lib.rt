// The book as text, in a lent buffer. Start at `report`.
// Meets specs/Report.antt; what stands in a line is in report_cells. A refused call leaves every byte.
#![tactic(auto)]

ghost use Rattle.std.specs.Prelude.{◌≡◌, ◌+◌, ◌≤◌, ◌<◌, get_or, length};
ghost use Rattle.book_words.specs.Layout.{slots_most};
ghost use Rattle.report.specs.Report.{Put, Reported, line_at, lines_from, report_text};

use answers::Refusal;
use book_words::{BOOK_WORDS, KEYS};
use ids::Request;
use put::Writer;
use report_cells::{Entry, Line};

mod put;

// Writes the report, and says how long it is: refusals 7 and 8. The bytes after the text stay as they are.
pub fn report(book: &[u64; BOOK_WORDS], out: &mut [u8]) -> Result<usize, Refusal>
    ensures { Reported book.now out.old result out.new }
{
    if book_words::well::is_malformed(book) {
        return Err(Refusal::Malformed);
    }
    let size = text_length(book);
    if out.len() < size {
        return Err(Refusal::Room);
    }
    let mut writer = Writer { out, at: 0 };
    writer.put_line(Line::Header);
    put_lines(book, &mut writer);
    Ok(size)
}

// The line of a slot.
#[tactic(auto, using(crate::proofs::ReportLaws::no_line, crate::proofs::ReportLaws::kept_line, crate::proofs::ReportLaws::no_request))]
fn line_at(book: &[u64; BOOK_WORDS], i: usize) -> Line
    requires { i < slots_most }
    ensures { result ≡ line_at book.now i }
{
    let key = book[KEYS + i];
    if key == 0 {
        return Line::Nothing;
    }
    let Some(request) = Request::unpack(key - 1) else {
        return Line::Nothing;
    };
    let block = book_words::block(book, i);
    Line::Kept(Entry {
        slot: i as u64,
        registers: book_words::registers_of(book),
        request,
        outcome: answer_words::outcome_of(&block),
    })
}

// How many bytes the text has.
fn text_length(book: &[u64; BOOK_WORDS]) -> usize
    requires { get_or book.now 0 0 ≤ slots_most }
    ensures { result ≡ length (report_text book.now) }
{
    let slots = book[0] as usize;
    let mut sum = put::line_length(Line::Header);
    for i in 0..slots {
        sum += put::line_length(line_at(book, i));
    }
    sum
}

// Writes the lines of the held slots.
fn put_lines(book: &[u64; BOOK_WORDS], writer: &mut Writer<'_>)
    requires few { get_or book.now 0 0 ≤ slots_most }
    requires room { writer.old.at + length (lines_from book.now (get_or book.now 0 0) 0) ≤ length writer.old.out.now }
    ensures same_reference { writer.new.out.ghost_name ≡ writer.old.out.ghost_name }
    ensures put { Put (lines_from book.now (get_or book.now 0 0) 0) writer.old.out.now writer.old.at writer.new.at writer.new.out.now }
{
    let slots = book[0] as usize;
    for i in 0..slots {
        writer.put_line(line_at(book, i));
    }
}
