// A text that grows at its end, as far as there is room. Assumes nothing.
ghost use Rattle.std.specs.Prelude.{ℕ, List, ◌≡◌, [], ◌≤◌, length, take};
ghost use Rattle.answers.specs.Answer.{decimal, line};
ghost use Rattle.answers.specs.Written.{Written};
ghost use Rattle.verdicts.specs.Answer.{said};
ghost use Rattle.wording.specs.Promises.{cut, more};

use std::marker::Model;
use verdicts::Answer;

// The room of a line.
pub(crate) const LINE: usize = 96;

// A buffer with a length beside it, since there is no heap: outside it is the text.
// No ArrayVec: a piece that is too long is cut where the room ends, and an ArrayVec cuts nothing.
#[derive(Drop)]
pub(crate) struct Phrase<const ROOM: usize> {
    bytes: [u8; ROOM],
    length: usize,
}

pub(crate) type Line = Phrase<LINE>;

impl<const ROOM: usize> Model for Phrase<ROOM> {
    ghost Value = { List ℕ };

    ghost view = { λ t. take t.length t.bytes };

    ghost invariant = { λ t. t.length ≤ ROOM };
}

impl<const ROOM: usize> Phrase<ROOM> {
    // By itself, so that the zeros that a page is made of are gone from the stack once it is there.
    #[inline(never)]
    pub(crate) fn new() -> Self
        ensures { result ≡ [] }
    {
        Phrase {
            bytes: [0; ROOM],
            length: 0,
        }
    }

    pub(crate) fn add(&mut self, piece: &[u8])
        ensures { self.new ≡ cut ROOM self.old piece.now }
    {
        let start = self.length;
        let fits = piece.len().min(ROOM - start);
        let bytes = &mut self.bytes[..];
        bytes[start..start + fits].copy_from_slice(&piece[..fits]);
        self.length = start + fits;
    }

    // The same of a line, which is small enough to be handed on.
    pub(crate) fn say(mut self, piece: &[u8]) -> Self
        ensures { result ≡ cut ROOM self.entry piece.now }
    {
        self.add(piece);
        self
    }

    pub(crate) fn text(&self) -> &[u8]
        ensures whole { result.now ≡ self.now }
        ensures short { length self.now ≤ ROOM }
    {
        &self.bytes[..self.length]
    }

    pub(crate) fn put(&self, out: &mut [u8]) -> usize
        ensures written { Written self.now out.old out.new result }
        ensures short { length self.now ≤ ROOM }
    {
        answers::area::put(out, self.text())
    }
}

impl Phrase<LINE> {
    // An answer's line always has room.
    pub(crate) fn line(a: Answer) -> Line
        ensures { result ≡ line (said a) }
    {
        let mut bytes = [0; LINE];
        let length = answers::put_line(&mut bytes, a);
        Phrase { bytes, length }
    }

    pub(crate) fn say_decimal(self, n: u32) -> Line
        ensures { result ≡ more self (decimal n) }
    {
        let mut digits = [0; 10];
        let end = answers::put_decimal(&mut digits, n);
        self.say(&digits[..end])
    }

    pub(crate) fn say_number(self, n: u8) -> Line
        ensures { result ≡ more self (decimal n) }
    {
        self.say_decimal(n as u32)
    }
}
