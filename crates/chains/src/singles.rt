// The short way to decide what the links hold: where every buffer links to itself, a message has one buffer.
// Nothing is assumed of the bytes. Every fold asks all buffers, with no early exit: so compiled, several at once.
ghost use Rattle.std.specs.Prelude.{◌≡◌, not, map, ℕ, ◌*◌, ◌/◌, ◌%◌, ◌^◌, ◌<◌};
ghost use Rattle.bits.specs.Word.{bit, bits, width};
ghost use Rattle.rings.specs.Decides.{Decides};
ghost use Rattle.chains.specs.Links.{num};
ghost use Rattle.chains.specs.Chained.{Separate, Single};

use sizes::{BUFFERS, Bid};

// Whether each links to itself.
pub(crate) fn separate(chain: &[Bid; BUFFERS]) -> bool
    ensures { Decides result (Separate (map num chain.now)) }
{
    (0..BUFFERS).fold(true, |all, b| all & (chain[b] == Bid(b as u8)))
}

// The byte of a word that has bit b, of the bits below 32.
fn byte_of(w: u32, b: usize) -> u8
    ensures { result ≡ w / 2 ^ (8 * (b / 8 % 4)) % 2 ^ 8 }
{
    ((w >> (8 * (b / 8 % 4))) % 256) as u8
}

// Whether bit b is on. As `bits::has_bit`, but by bytes: a loop over this is compiled to far fewer instructions.
pub(crate) fn in_byte(w: u32, b: usize) -> bool
    ensures { b < width → result ≡ bits w b }
{
    let mask = 1u8 << (b % 8);
    byte_of(w, b) & mask != 0
}

// Whether a buffer that is not free needs no other, and a free one is none of a message.
fn single(need: u8, free: bool) -> bool
    ensures { Decides result (need ≡ bit (not free)) }
{
    if free { need == 0 } else { need == 1 }
}

// The same for all.
pub(crate) fn all_single(need: &[u8; BUFFERS], free: u32) -> bool
    ensures { Decides result ((b : ℕ) → b < width → Single need.now (bits free) b) }
{
    (0..BUFFERS).fold(true, |all, b| all & single(need[b], in_byte(free, b)))
}
