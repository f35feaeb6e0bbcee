// The pure part of the replay program: bytes in any chunks in, the answers to their lines out.
// The caller lends the store, the line buffer and an area for the answers, carries along what goes on from chunk to chunk, and moves the bytes. Assumes nothing.
#![tactic(auto)]

ghost use Rattle.std.specs.Prelude.{ℕ, ◌+◌, ◌≤◌, ◌<◌, ◌≡◌, List, ◌++◌, length};
ghost use Rattle.desk.specs.Line.{Line};
ghost use Rattle.desk.specs.Theorems.{longest_text};
ghost use Rattle.feed.specs.Buffer.{told, Told, HoldsLine};
ghost use Rattle.feed.specs.Takes.{FromFresh, Feeds, GoesOn, Finishes};
ghost use Rattle.feed.specs.Promises.{AnsweredBehind, fed_so_far};

use desk::{Desk, LONGEST_TEXT, Turn};
use memchr::memchr;
use script::LONGEST_LINE;

const NEWLINE: u8 = b'\n';

/// What goes on from chunk to chunk beside the lent areas: the desk, and how many bytes the line buffer holds of a line that has not ended. None says that this line is too long, and so does any number over the longest line.
#[derive(Clone, Copy)]
pub struct Ongoing {
    pub desk: Desk,
    pub held: Option<usize>,
}

impl Ongoing {
    /// Before the first byte.
    pub fn fresh() -> Ongoing
        ensures { FromFresh result }
    {
        Ongoing {
            desk: Desk::fresh(),
            held: Some(0),
        }
    }
}

/// What goes on, how many bytes of the chunk are taken, and how many of the area are written: a number beside a lent area, since there is no heap.
#[derive(Clone, Copy)]
pub struct Fed {
    pub next: Ongoing,
    pub used: usize,
    pub wrote: usize,
}

// None for every length over the longest.
fn capped(held: Option<usize>) -> Option<usize>
    ensures same { result ≡ told held }
    ensures bounded { Told result }
{
    held.filter(|n| *n <= LONGEST_LINE)
}

// Puts a piece behind what the line buffer holds and gives what it then holds. The bytes of a line that gets too long are dropped.
fn append(line: &mut [u8; LONGEST_LINE], held: Option<usize>, piece: &[u8]) -> Option<usize>
    requires { Told held }
    ensures bounded { Told result }
    ensures appended { (l : List ℕ) → HoldsLine l line.old held → HoldsLine (l ++ piece.now) line.new result }
{
    let start = held?;
    let end = start + piece.len();
    if LONGEST_LINE < end {
        return None;
    }
    line[start..end].copy_from_slice(piece);
    Some(end)
}

// The text of the answer to the line that the buffer holds, at the start of room.
fn text(
    d: Desk,
    held: Option<usize>,
    store: &mut [u8],
    line: &[u8; LONGEST_LINE],
    room: &mut [u8],
) -> Turn
    ensures short { result.length ≤ longest_text }
    ensures answered { (l : List ℕ) → HoldsLine l line.now held → Line store.old l room.old d store.new room.new result }
{
    match capped(held) {
        Some(n) => desk::line(d, store, &line[..n], room),
        None => desk::bad(d, room),
    }
}

// The line buffer holds a whole line: its answer and a newline go behind what is written.
fn answer(
    t: Turn,
    held: Option<usize>,
    store: &mut [u8],
    line: &[u8; LONGEST_LINE],
    out: &mut [u8],
) -> Turn
    requires { t.length + longest_text < length out.old }
    ensures within { result.length ≤ length out.old }
    ensures answered { (l : List ℕ) → HoldsLine l line.now held → AnsweredBehind l store.old out.old t store.new out.new result }
{
    let told = text(t.desk, held, store, line, &mut out[t.length..]);
    let end = t.length + told.length;
    out[end] = NEWLINE;
    Turn {
        desk: told.desk,
        length: end + 1,
    }
}

// What goes on after a turn, with so many bytes held and used.
fn so_far(t: Turn, held: Option<usize>, used: usize) -> Fed
    ensures { result ≡ fed_so_far t held used }
{
    Fed {
        next: Ongoing { desk: t.desk, held },
        used,
        wrote: t.length,
    }
}

// The store, the line buffer and the area are what callers lend. Each is an argument of its own, since the promises, Feeds and Finishes, speak of each.

/// Takes a chunk, or as much of it as there is room for the answers to its lines: nothing more where the longest text and its newline might not fit. What is left is given again.
pub fn feed(
    o: Ongoing,
    store: &mut [u8],
    line: &mut [u8; LONGEST_LINE],
    chunk: &[u8],
    out: &mut [u8],
) -> Fed
    ensures feeds { Feeds store.old line.old chunk.now out.old o store.new line.new out.new result }
    ensures goes_on { GoesOn chunk.now out.old result }
{
    let mut t = Turn {
        desk: o.desk,
        length: 0,
    };
    let mut held = capped(o.held);
    let mut used = 0;
    // A turn is a line, so the loop steps by what that takes of the chunk, and no iterator is plainer.
    while used < chunk.len() {
        if out.len() - t.length <= LONGEST_TEXT {
            return so_far(t, held, used);
        }
        let rest = &chunk[used..];
        let Some(n) = memchr(NEWLINE, rest) else {
            return so_far(t, append(line, held, rest), chunk.len());
        };
        held = append(line, held, &rest[..n]);
        t = answer(t, held, store, line, out);
        held = Some(0);
        used += n + 1;
    }
    so_far(t, held, used)
}

/// The input has ended: a last line without a newline is answered too, where there is room for the longest text and its newline.
pub fn finish(o: Ongoing, store: &mut [u8], line: &[u8; LONGEST_LINE], out: &mut [u8]) -> Turn
    ensures { Finishes store.old line.now out.old o store.new out.new result }
{
    let t = Turn {
        desk: o.desk,
        length: 0,
    };
    if o.held == Some(0) {
        return t;
    }
    if out.len() <= LONGEST_TEXT {
        return t;
    }
    answer(t, o.held, store, line, out)
}
