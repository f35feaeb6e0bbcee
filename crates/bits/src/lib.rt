// A word as one bit for each number from 0 to 31: put a bit on or off, test it, find the lowest and the highest that is on.
// Every function answers for every word and every index; an index of 32 or more has no bit.
// So 32 can stand for no bit, and no Option does: every move takes it as it is and changes nothing, and the promises of document 01 are equations over all numbers.
// `Pids` and `Bids` of sizes are opened for it: methods of theirs would be the first two functions twice more.
#![tactic(auto)]

ghost use Rattle.std.specs.Prelude.{◌≡◌};
ghost use Rattle.lists.specs.Lists.{put, lowest};
ghost use Rattle.bits.specs.Word.{width, word, bits, highest};

/// w with bit i put on or off; w itself where i has no bit.
pub fn put_bit(w: u32, i: u32, on: bool) -> u32
    ensures { result ≡ word width (put (bits w) i on) }
{
    if i >= u32::BITS {
        return w;
    }
    if on { w | (1 << i) } else { w & !(1 << i) }
}

/// Whether bit i of w is on; false where i has no bit.
pub fn has_bit(w: u32, i: u32) -> bool
    ensures { result ≡ bits w i }
{
    i < u32::BITS && (w >> i) & 1 == 1
}

/// The number of the lowest bit of w that is on, or 32 where none is.
pub fn lowest_bit(w: u32) -> u32
    ensures { result ≡ lowest 0 width (bits w) }
{
    w.trailing_zeros()
}

/// The number of the highest bit of w that is on, or 32 where none is.
pub fn highest_bit(w: u32) -> u32
    ensures { result ≡ highest width width (bits w) }
{
    w.checked_ilog2().unwrap_or(u32::BITS)
}
