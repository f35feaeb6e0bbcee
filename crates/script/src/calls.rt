// Which order the words of a line are. Assumes nothing.
ghost use Rattle.std.specs.Prelude.{◌≡◌, ◌∷◌};
ghost use Rattle.script.specs.Grammar.{beside, alone, reading, numbered, followed, thrice, of_two, of_three, of_four, sentence, words};
ghost use Rattle.script.specs.Promises.{sending};
ghost use Rattle.script.specs.Request.{word_of};

use crate::hex::count_bytes;
use crate::numbers::read_number;
use crate::words::cut;

/// A call that is lent nothing, with its numbers.
#[derive(Clone, Copy)]
pub enum Quiet {
    Create(u32),
    Stop(u32),
    End,
    Yield,
    Class(u32),
    Tick,
    Mailbox(u32, u32, u32),
    Receive(u32),
    Release,
    Signal(u32),
    Wait(u32),
}

/// Which order a line is: a call that is lent nothing, one that carries so many bytes, which the last of the line spell, two digits a byte, or one that is lent a room; why a process waits; or a fresh start with so many ticks to a slice.
#[derive(Clone, Copy)]
pub enum Word {
    Call(Quiet),
    Send(u32, u32),
    Read(u32),
    Why(u32),
    Slice(u32),
}

pub const LARGEST_ROOM: u32 = 4096;

// The words that stand alone.
#[tactic(auto, using(crate::proofs::WordLaws::fixed_words))]
fn alone(w: &[u8]) -> Option<Word>
    ensures { result ≡ word_of (beside w.now alone) }
{
    match w {
        b"end" => Some(Word::Call(Quiet::End)),
        b"yield" => Some(Word::Call(Quiet::Yield)),
        b"tick" => Some(Word::Call(Quiet::Tick)),
        b"release" => Some(Word::Call(Quiet::Release)),
        _ => None,
    }
}

fn reading(room: u32) -> Option<Word>
    ensures { result ≡ word_of (reading room) }
{
    (room <= LARGEST_ROOM).then_some(Word::Read(room))
}

// The words that take a number.
#[tactic(auto, using(crate::proofs::WordLaws::fixed_words))]
fn numbered(w: &[u8], n: u32) -> Option<Word>
    ensures { result ≡ word_of (beside w.now (numbered n)) }
{
    match w {
        b"create" => Some(Word::Call(Quiet::Create(n))),
        b"stop" => Some(Word::Call(Quiet::Stop(n))),
        b"class" => Some(Word::Call(Quiet::Class(n))),
        b"receive" => Some(Word::Call(Quiet::Receive(n))),
        b"read" => reading(n),
        b"signal" => Some(Word::Call(Quiet::Signal(n))),
        b"wait" => Some(Word::Call(Quiet::Wait(n))),
        b"why" => Some(Word::Why(n)),
        b"slice" => Some(Word::Slice(n)),
        _ => None,
    }
}

fn sending(m: u32, hex: &[u8]) -> Option<Word>
    ensures { result ≡ word_of (sending m hex.now) }
{
    let n = count_bytes(hex)?;
    Some(Word::Send(m, n))
}

// The words that take a number and one thing more.
#[tactic(auto, using(crate::proofs::WordLaws::fixed_words))]
fn followed(w: &[u8], n: u32, more: &[u8]) -> Option<Word>
    ensures { result ≡ word_of (beside w.now (followed n more.now)) }
{
    match w {
        b"send" => sending(n, more),
        _ => None,
    }
}

// The words that take three numbers.
#[tactic(auto, using(crate::proofs::WordLaws::fixed_words))]
fn thrice(w: &[u8], a: u32, b: u32, c: u32) -> Option<Word>
    ensures { result ≡ word_of (beside w.now (thrice a b c)) }
{
    match w {
        b"mailbox" => Some(Word::Call(Quiet::Mailbox(a, b, c))),
        _ => None,
    }
}

fn of_two(w: &[u8], digits: &[u8]) -> Option<Word>
    ensures { result ≡ word_of (of_two w.now digits.now) }
{
    let n = read_number(digits)?;
    numbered(w, n)
}

fn of_three(w: &[u8], digits: &[u8], more: &[u8]) -> Option<Word>
    ensures { result ≡ word_of (of_three w.now digits.now more.now) }
{
    let n = read_number(digits)?;
    followed(w, n, more)
}

fn of_four(w: &[u8], x: &[u8], y: &[u8], z: &[u8]) -> Option<Word>
    ensures { result ≡ word_of (of_four w.now x.now y.now z.now) }
{
    let a = read_number(x)?;
    let b = read_number(y)?;
    let c = read_number(z)?;
    thrice(w, a, b, c)
}

// A line of more than two words: w and x, and what follows the second space.
fn three_or_more(w: &[u8], x: &[u8], rest: &[u8]) -> Option<Word>
    ensures { result ≡ word_of (sentence (w.now ∷ x.now ∷ words rest.now)) }
{
    let Some((y, z)) = cut(rest) else {
        return of_three(w, x, rest);
    };
    match cut(z) {
        None => of_four(w, x, y, z),
        Some(_) => None,
    }
}

// A line of more than one word: w, and what follows the first space.
fn two_or_more(w: &[u8], rest: &[u8]) -> Option<Word>
    ensures { result ≡ word_of (sentence (w.now ∷ words rest.now)) }
{
    match cut(rest) {
        None => of_two(w, rest),
        Some((x, more)) => three_or_more(w, x, more),
    }
}

pub(crate) fn sentence(line: &[u8]) -> Option<Word>
    ensures { result ≡ word_of (sentence (words line.now)) }
{
    match cut(line) {
        None => alone(line),
        Some((w, rest)) => two_or_more(w, rest),
    }
}
