// A notice strikes kept answers. Start at `strike_all`.
// Meets `shares`, `touched` and `struck_from` of specs/Book.antt.
ghost use Rattle.std.specs.Prelude.{◌≡◌, ◌<◌, min};
ghost use Rattle.answers.specs.Layout.{pieces_most};
ghost use Rattle.book_words.specs.Layout.{slots_most};
ghost use Rattle.book.specs.Book.{shared_from, shares, strike, struck_from, touched};

use answers::{PIECES_MOST, Pieces};
use book_words::{BOOK_WORDS, KEYS, SLOTS_MOST};
use memory_image::Piece;

// What a notice says: so many bytes were edited, from a start on. The public call has the two as numbers, as C has them.
#[derive(Clone, Copy)]
pub struct Edited {
    pub start: u64,
    pub size: u64,
}

impl Edited {
    // Whether a piece shares an address with it. It computes no sum, so nothing can wrap.
    #[tactic(auto, using(crate::proofs::NoticeLaws::share_below, crate::proofs::NoticeLaws::share_above))]
    fn shares(self, piece: Piece) -> bool
        ensures { result ≡ shares self.start self.size piece }
    {
        if self.start <= piece.address {
            return bit_fields::both(piece.address - self.start < self.size, 0 < piece.length);
        }
        bit_fields::both(self.start - piece.address < piece.length, 0 < self.size)
    }

    // Whether one of the counted pieces of a list does.
    fn shares_any(self, list: Pieces) -> bool
        ensures { result ≡ shared_from self.start self.size list.piece (min list.count pieces_most) 0 }
    {
        let n = list.count.min(PIECES_MOST as u64) as usize;
        let counted = &list.piece[..n];
        counted.iter().any(|piece| self.shares(*piece))
    }
}

// Whether a notice strikes a slot.
#[tactic(auto, using(crate::proofs::NoticeLaws::touch_empty, crate::proofs::NoticeLaws::touch_held))]
fn touches(book: &[u64; BOOK_WORDS], i: usize, edited: Edited) -> bool
    requires { i < slots_most }
    ensures { result ≡ touched book.now edited.start edited.size i }
{
    let key = book[KEYS + i];
    if key == 0 {
        return false;
    }
    let block = book_words::block(book, i);
    edited.shares_any(answer_words::list_of(&block))
}

#[tactic(auto, using(crate::proofs::NoticeLaws::strike_hit, crate::proofs::NoticeLaws::strike_miss))]
fn strike_slot(book: &mut [u64; BOOK_WORDS], i: usize, edited: Edited)
    requires { i < slots_most }
    ensures { book.new ≡ strike book.old edited.start edited.size i }
{
    if touches(&*book, i, edited) {
        book[KEYS + i] = 0;
    }
}

// Strikes every slot that a notice touches.
pub fn strike_all(book: &mut [u64; BOOK_WORDS], edited: Edited)
    ensures { book.new ≡ struck_from book.old edited.start edited.size slots_most 0 }
{
    for i in 0..SLOTS_MOST {
        strike_slot(book, i, edited);
    }
}
