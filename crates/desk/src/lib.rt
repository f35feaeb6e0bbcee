// The replay desk: one line of a script in, the line of its answer out.
// The caller cuts the input into lines, carries the desk and the store along, and writes the newlines. Assumes nothing.
#![tactic(auto)]

ghost use Rattle.std.specs.Prelude.{List, ◌≡◌, ℕ, ◌+◌, ◌≤◌, length};
ghost use Rattle.std.proofs.Math.Option.{none, some};
ghost use Rattle.plain.specs.Calls as Plain;
ghost use Rattle.script.specs.Grammar.{does, why, slice, most_bytes, largest_room};
ghost use Rattle.script.specs.Request.{called};
ghost use Rattle.script.specs.Spelled.{spelled};
ghost use Rattle.kernel.specs.Promise.{Plainly};
ghost use Rattle.desk.specs.Reply.{at_first};
ghost use Rattle.desk.specs.Line.{HoldsDesk, Turned, Line};
ghost use Rattle.desk.specs.Tell.{turn_of, Told};

use kernel::{Done, Kernel, Settings};
use script::calls;
use script::calls::{Quiet, Word};
use script::hex::{MOST_BYTES, put_bytes};
use verdicts::DONE;

const LARGEST_ROOM: usize = calls::LARGEST_ROOM as usize;

/// An area of so many bytes takes every answer.
pub const LONGEST_TEXT: usize = answers::TEXT_ROOM + 2 * LARGEST_ROOM;

/// The kernel, and whether the next line is the first, which alone can name the slice.
#[derive(Clone, Copy)]
pub struct Desk {
    pub state: Kernel,
    pub first: bool,
}

impl Desk {
    /// Before the first line.
    pub fn fresh() -> Desk
        ensures { HoldsDesk result at_first }
    {
        let state = Kernel::fresh(Settings::usual());
        Desk { state, first: true }
    }
}

/// The desk after a line, and how many bytes of the lent area the answer takes: a number beside it, since there is no heap. Each function takes
/// the desk first and the area last, and no struct has both: the area is lent for one answer.
#[derive(Clone, Copy)]
pub struct Turn {
    pub desk: Desk,
    pub length: usize,
}

// A line has been read: the next one is not the first.
fn turned(state: Kernel, length: usize) -> Turn
    ensures { result ≡ turn_of state length }
{
    Turn {
        desk: Desk {
            state,
            first: false,
        },
        length,
    }
}

// The calls that are lent nothing.
fn called(k: Kernel, call: Quiet) -> Done
    ensures { Plainly (called call) k result }
{
    match call {
        Quiet::Create(n) => k.create(n),
        Quiet::Stop(n) => k.stop(n),
        Quiet::End => k.end(),
        Quiet::Yield => k.yield_now(),
        Quiet::Class(n) => k.class(n),
        Quiet::Tick => k.tick(),
        Quiet::Mailbox(m, capacity, mode) => k.mailbox(m, capacity, mode),
        Quiet::Receive(n) => k.receive(n),
        Quiet::Release => k.release(),
        Quiet::Signal(n) => k.signal(n),
        Quiet::Wait(n) => k.wait(n),
    }
}

fn tell(done: Done, out: &mut [u8]) -> Turn
    ensures { Told done out.old out.new result }
{
    let length = answers::put_line(out, done.answer);
    turned(done.state, length)
}

// The pairs of hex spell the message.
fn send(d: Desk, store: &mut [u8], m: u32, hex: &[u8], out: &mut [u8]) -> Turn
    requires { length hex.now ≤ most_bytes + most_bytes }
    ensures { Turned (some (does (Plain.send m (spelled hex.now)))) store.old out.old d store.new out.new result }
{
    let mut bytes = [0; MOST_BYTES];
    let n = put_bytes(&mut bytes, hex);
    let done = d.state.send(store, m, &bytes[..n]);
    tell(done, out)
}

// A successful read shows its bytes.
fn read(d: Desk, store: &[u8], n: u32, out: &mut [u8]) -> Turn
    requires { n ≤ largest_room }
    ensures { Turned (some (does (Plain.read n))) store.now out.old d store.now out.new result }
{
    let mut room = [0; LARGEST_ROOM];
    let size = n as usize;
    let done = d.state.read(store, &mut room[..size]);
    let a = done.answer;
    if a.code != DONE {
        return tell(done, out);
    }
    let shown = a.number as usize;
    let length = answers::put_read_line(out, a, &room[..shown]);
    turned(done.state, length)
}

// Why the process of that name waits, whatever the store holds. A refusal shows no reason.
fn why(d: Desk, name: u32, out: &mut [u8]) -> Turn
    ensures { (store : List ℕ) → Turned (some (why name)) store out.old d store out.new result }
{
    let w = reasons::why(d.state, name);
    let Some(reason) = w.reason else {
        let length = answers::put_line(out, w.answer);
        return turned(d.state, length);
    };
    let length = wording::put_reason_line(out, w.answer, reason);
    turned(d.state, length)
}

/// A line that is no order, whatever the store holds.
pub fn bad(d: Desk, out: &mut [u8]) -> Turn
    ensures { (store : List ℕ) → Turned none store out.old d store out.new result }
{
    let length = answers::put_bad(out);
    turned(d.state, length)
}

// Only the very first line can name the slice. It is answered as the fresh start, whatever the store holds.
fn start(d: Desk, n: u32, out: &mut [u8]) -> Turn
    ensures { (store : List ℕ) → Turned (some (slice n)) store out.old d store out.new result }
{
    if d.first {
        let done = Kernel::fresh_start(n);
        return tell(done, out);
    }
    bad(d, out)
}

/// Any line and any area: where the answer does not fit into out, nothing is written there and the length is 0.
pub fn line(d: Desk, store: &mut [u8], line: &[u8], out: &mut [u8]) -> Turn
    ensures { Line store.old line.now out.old d store.new out.new result }
{
    let Some(word) = script::request(line) else {
        return bad(d, out);
    };
    match word {
        Word::Call(call) => {
            let done = called(d.state, call);
            tell(done, out)
        }
        Word::Send(m, n) => {
            let from = line.len() - 2 * n as usize;
            send(d, store, m, &line[from..], out)
        }
        Word::Read(n) => read(d, store, n, out),
        Word::Why(n) => why(d, n, out),
        Word::Slice(n) => start(d, n, out),
    }
}
