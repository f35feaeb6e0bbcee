// Links of buffers: for each buffer the one after it, and for the last of a message, and a free one, itself.
// The table may hold anything. Every function answers for every number: past the last buffer there is no link and no bit.
// The table and the word of free buffers are two parameters: who has them has two fields, and lends each by itself.
#![tactic(auto)]

mod singles;
mod walked;

ghost use Rattle.std.specs.Prelude.{◌≡◌, map, ℕ, ◌<◌, leb, length, get_or};
ghost use Rattle.lists.specs.Lists.{lowest, someone, those};
ghost use Rattle.bits.specs.Word.{bits, width, word};
ghost use Rattle.plain.specs.Pages.{needed};
ghost use Rattle.rings.specs.Decides.{Decides};
ghost use Rattle.chains.specs.Led.{after};
ghost use Rattle.chains.specs.Links.{num, run, lows, need_at, own, link_up, alone, removed, added};
ghost use Rattle.chains.specs.Chained.{Chained};

use bits::{lowest_bit, put_bit};
use sizes::{BUFFER_SIZE, BUFFERS, Bid, Bids};

/// Each buffer linked to itself.
pub fn fresh() -> [Bid; BUFFERS]
    ensures { map num result ≡ own }
{
    rings::links::own()
}

/// The buffer after b, or 0 past the last buffer: as every move, any number is taken.
pub fn next(chain: &[Bid; BUFFERS], b: Bid) -> Bid
    ensures { result.0 ≡ after (map num chain.now) b.0 }
{
    tables::entry(chain, b.0 as usize, Bid(0))
}

/// The lowest that is on, or 32 where none is: no Option, since every step takes a number past the last buffer as it is and changes nothing.
pub fn lowest_of(s: u32) -> Bid
    ensures { result.0 ≡ lowest 0 width (bits s) }
{
    Bid(lowest_bit(s) as u8)
}

// Whether one is still to be drawn.
fn any(s: u32, left: usize) -> bool
    ensures { result ≡ someone (lows left (bits s)) }
{
    left != 0 && s != 0
}

// The one that is drawn after b, or b where none is.
fn behind(s: u32, left: usize, b: Bid) -> Bid
    ensures { result.0 ≡ get_or (lows left (bits s)) 0 b.0 }
{
    if any(s, left) { lowest_of(s) } else { b }
}

/// The n lowest free buffers, or all where fewer are free, are linked up in order and no longer free.
/// `left` counts down in a `while`, since the loop ends by the free ones too: a `for` with a `break` asks in two places.
pub fn take(chain: &mut [Bid; BUFFERS], free: &mut Bids, n: usize)
    ensures links { map num chain.new ≡ link_up (map num chain.old) (lows n (bits free.old.0)) }
    ensures others { free.new.0 ≡ word width (removed (bits free.old.0) (lows n (bits free.old.0))) }
{
    let mut s = free.0;
    let mut left = n;
    while any(s, left) {
        let b = lowest_of(s);
        s = put_bit(s, b.0 as u32, false);
        left -= 1;
        chain[b.0 as usize] = behind(s, left, b);
    }
    free.0 = s;
}

/// The n buffers from b on, by the links as they were, are each linked to itself and free.
pub fn give_back(chain: &mut [Bid; BUFFERS], b: Bid, n: usize, free: &mut Bids)
    ensures links { map num chain.new ≡ alone (map num chain.old) (run (map num chain.old) n b.0) }
    ensures others { free.new.0 ≡ word width (added (bits free.old.0) (run (map num chain.old) n b.0)) }
{
    // The links as they were: each is read after the one before it has been set.
    let were = *chain;
    let mut s = free.0;
    let mut x = b;
    for _ in 0..n {
        tables::set_entry(chain, x.0 as usize, x);
        s = put_bit(s, x.0 as u32, true);
        x = next(&were, x);
    }
    free.0 = s;
}

/// Whether n or more are free.
pub fn enough(free: Bids, n: usize) -> bool
    ensures { result ≡ leb n (length (those 0 width (bits free.0))) }
{
    n <= free.0.count_ones() as usize
}

/// How many buffers a message of this length needs: one at least.
#[tactic(auto, unfolding(plain::specs::Pages::needed, plain::specs::Sizes::buffer_size))]
pub fn buffers_for(length: usize) -> usize
    ensures { result ≡ needed length }
{
    if length == 0 {
        return 1;
    }
    (length - 1) / BUFFER_SIZE + 1
}

// How many buffers the message at a buffer has: none at place 0, where no message begins.
#[tactic(auto, unfolding(plain::specs::Pages::needed, plain::specs::Sizes::buffer_size))]
fn need_of(place: u8, length: u16) -> u8
    ensures { result ≡ need_at place length }
{
    if place == 0 {
        return 0;
    }
    buffers_for(length as usize) as u8
}

/// The same for all.
pub fn needs(at: &[u8; BUFFERS], length: &[u16; BUFFERS]) -> [u8; BUFFERS]
    ensures { (b : ℕ) → b < width → get_or result b 0 ≡ need_at (get_or at.now b 0) (get_or length.now b 0) }
{
    let mut need = [0; BUFFERS];
    for b in 0..BUFFERS {
        need[b] = need_of(at[b], length[b]);
    }
    need
}

/// Whether the table links each message's buffers, as many as it needs, all that are not free and no other.
/// Most of the time every buffer links to itself, and a short way decides.
pub fn chained(chain: &[Bid; BUFFERS], need: &[u8; BUFFERS], free: Bids) -> bool
    ensures { Decides result (Chained (map num chain.now) need.now (bits free.0)) }
{
    if singles::separate(chain) {
        singles::all_single(need, free.0)
    } else {
        walked::chained(chain, need, free.0)
    }
}
