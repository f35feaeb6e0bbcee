// The long way to decide what the links hold: every message is walked, from its first buffer to its last.
// Nothing is assumed of the bytes.
ghost use Rattle.std.specs.Prelude.{◌≡◌, true, map, ℕ, ◌<◌};
ghost use Rattle.bits.specs.Word.{bits, width};
ghost use Rattle.rings.specs.Decides.{Decides};
ghost use Rattle.chains.specs.Links.{num};
ghost use Rattle.chains.specs.Chained.{used, Chained, Walked, Alone, AllWalked};

use crate::next;
use crate::singles::in_byte;
use bits::{has_bit, put_bit};
use sizes::{BUFFERS, Bid};

// n buffers from b on: each is still to be reached, and the last links to itself. What is then still to be reached, or None where they are not so.
fn walk(chain: &[Bid; BUFFERS], b: Bid, n: u8, todo: u32) -> Option<u32>
    ensures { Walked (map num chain.now) n b.0 (bits todo) result }
{
    let mut left = todo;
    let mut last = b;
    let mut x = b;
    for _ in 0..n {
        if !has_bit(left, x.0 as u32) {
            return None;
        }
        left = put_bit(left, x.0 as u32, false);
        last = x;
        x = next(chain, x);
    }
    (x == last).then_some(left)
}

// Those that are not free.
fn busy(free: u32) -> u32
    ensures { (p : ℕ) → bits result p ≡ used (bits free) p }
{
    !free
}

// The messages one after another, from all that are not free: what is left of these, or None where a message is not as it should be.
fn walks(chain: &[Bid; BUFFERS], need: &[u8; BUFFERS], free: u32) -> Option<u32>
    ensures { AllWalked (map num chain.now) need.now (bits free) result }
{
    let mut todo = busy(free);
    for b in 0..BUFFERS {
        todo = walk(chain, Bid(b as u8), need[b], todo)?;
    }
    Some(todo)
}

// Whether b is not free, or links to itself.
fn rests(is_free: bool, after: Bid, b: Bid) -> bool
    ensures { Decides result (is_free ≡ true → after.0 ≡ b.0) }
{
    !is_free || after == b
}

// Whether each that is free links to itself. All are asked, with no early exit: so compiled, several at once.
fn all_rest(chain: &[Bid; BUFFERS], free: u32) -> bool
    ensures { Decides result ((p : ℕ) → p < width → Alone (map num chain.now) (bits free) p) }
{
    (0..BUFFERS).fold(
        true,
        |all, b| all & rests(in_byte(free, b), chain[b], Bid(b as u8)),
    )
}

// Whether the table links each message's buffers, as many as it needs, all that are not free and no other.
pub(crate) fn chained(chain: &[Bid; BUFFERS], need: &[u8; BUFFERS], free: u32) -> bool
    ensures { Decides result (Chained (map num chain.now) need.now (bits free)) }
{
    walks(chain, need, free) == Some(0) && all_rest(chain, free)
}
