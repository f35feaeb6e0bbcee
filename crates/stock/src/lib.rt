// Whether the mail of a state is sound by itself: every buffer is free, or one of a message that is queued once or in one hand.
// Nothing is assumed of what stands in the fields.
#![tactic(auto)]

ghost use Rattle.std.specs.Prelude.{◌≡◌, List, map, ℕ, length};
ghost use Rattle.bits.specs.Word.{bits};
ghost use Rattle.rings.specs.Walk.{tables};
ghost use Rattle.rings.specs.Decides.{Decides};
ghost use Rattle.plain.specs.Sizes.{buffers};
ghost use Rattle.boxes.specs.Box.{num};
ghost use Rattle.habits.specs.Tables.{capacity_in};
ghost use Rattle.mail.specs.Carries.{numbers};
ghost use Rattle.stock.specs.Stock.{Decision};
ghost use Rattle.stock.specs.Tests.{AllBuffers, AllEmpty, BufferFits, Few, Grasped, Handed, MessagesFit, Queued};

use bits::{lowest_bit, put_bit};
use boxes::{BOX_NODES, Boxes, bytes_of};
use chains::{chained, needs};
use habits::capacity_of;
use mail::Mail;
use sizes::{BUFFERS, Bid, PROCESSES, Pids};

const MAILBOXES: u32 = sizes::MAILBOXES as u32;

const LONGEST: u16 = sizes::LONGEST as u16;

// The place of a buffer in which a message in a hand begins. Elsewhere it is m + 1 for one in mailbox m, 0 where none begins:
// a byte and no Option, so that several places are compared at once.
const IN_HAND: u8 = sizes::MAILBOXES as u8 + 1;

// The place of each buffer that is queued, where the links, as bytes, hold rings.
fn queued(next: &[u8; BOX_NODES], prev: &[u8; BOX_NODES]) -> Option<[u8; BUFFERS]>
    ensures { Queued (tables next.now prev.now) result }
{
    rings::standing(next, prev, BUFFERS)
}

// Whether no mailbox holds more than it takes, by the links on: those back are not read.
fn few(next: &[u8; BOX_NODES], capacity: [u8; sizes::MAILBOXES]) -> bool
    ensures { (prev : List ℕ) → Decides result (Few (tables next.now prev) (capacity_in capacity)) }
{
    // A `for`: with `all` a call has 15 instructions more, one for each mailbox but the first.
    for m in 0..MAILBOXES {
        if Boxes::at_least(next, m, capacity_of(capacity, m) + 1) {
            return false;
        }
    }
    true
}

// A full hand gets its buffer b, which is at no other place.
fn grasp(at: &mut [u8; BUFFERS], b: Bid) -> bool
    ensures { Grasped at.old b.0 result at.new × (length at.new ≡ buffers) }
{
    let i = b.0 as usize;
    if BUFFERS <= i || at[i] != 0 {
        return false;
    }
    at[i] = IN_HAND;
    true
}

// Whether every hand has 0. All are asked, with no early exit: so compiled, several at once.
fn all_empty(hand: &[Bid; PROCESSES]) -> bool
    ensures { Decides result (AllEmpty (map num hand.now)) }
{
    (0..PROCESSES).fold(true, |all, p| all & (hand[p] == Bid(0)))
}

// Each full hand in turn, lowest first, gets its buffer; at first only the queued ones have a place. The other hands have 0.
fn handed(at: [u8; BUFFERS], hand: [Bid; PROCESSES], full: Pids) -> Option<[u8; BUFFERS]>
    ensures { Handed at (map num hand) full.0 result }
{
    let mut s = at;
    let mut rest = hand;
    let mut todo = full.0;
    // By the bits that are on, and not hand by hand: most hands are empty.
    while todo != 0 {
        let p = lowest_bit(todo);
        let i = p as usize;
        if !grasp(&mut s, rest[i]) {
            return None;
        }
        rest[i] = Bid(0);
        todo = put_bit(todo, p, false);
    }
    all_empty(&rest).then_some(s)
}

// Whether a buffer at this place has a length that it may have there.
fn buffer_fits(place: u8, length: u16) -> bool
    ensures { Decides result (BufferFits place length) }
{
    if place == 0 {
        return length == 0;
    }
    length <= LONGEST
}

// Whether every buffer does. All are asked, with no early exit: so compiled, several at once.
fn buffers_fit(at: [u8; BUFFERS], length: [u16; BUFFERS]) -> bool
    ensures { Decides result (AllBuffers at length) }
{
    (0..BUFFERS).fold(true, |all, b| all & buffer_fits(at[b], length[b]))
}

// Whether the messages have lengths that they may have, and as many buffers as these need: all that are not free.
fn messages_fit(at: [u8; BUFFERS], k: Mail) -> bool
    ensures { Decides result (MessagesFit at k.length (map num k.chain) (bits k.free.0)) }
{
    // Copied out before they are lent: lent from within, all of k would be copied.
    let length = k.length;
    let chain = k.chain;
    buffers_fit(at, length) && chained(&chain, &needs(&at, &length), k.free)
}

/// Whether k holds sound mail, where each mailbox takes as many messages as `capacity` has for it.
pub fn stocked(k: Mail, capacity: [u8; sizes::MAILBOXES]) -> bool
    ensures { Decision (numbers k) (capacity_in capacity) result }
{
    let next = bytes_of(k.boxes.next);
    let prev = bytes_of(k.boxes.prev);
    let Some(in_boxes) = queued(&next, &prev) else {
        return false;
    };
    if !few(&next, capacity) {
        return false;
    }
    let Some(at) = handed(in_boxes, k.hand, k.full) else {
        return false;
    };
    messages_fit(at, k)
}
