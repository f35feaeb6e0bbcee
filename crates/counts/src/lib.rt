// The counts of the semaphores, as signals and waits change them.
// Every function answers for every number: past the last semaphore nothing is counted and nothing changes.
#![tactic(auto, unfolding(plain::specs::Sizes::highest_count, crate::specs::Counts::signalled, crate::specs::Counts::claimed))]

ghost use Rattle.std.specs.Prelude.{◌≡◌, get_or};
ghost use Rattle.counts.specs.Counts.{signalled, claimed};

use tables::{entry, set_entry};

const HIGHEST_COUNT: u16 = sizes::HIGHEST_COUNT as u16;

/// What semaphore i counts, or 0 past the last: as every move, any number is taken.
pub fn count_of(t: [u16; sizes::SEMAPHORES], i: u32) -> u32
    ensures { result ≡ get_or t i 0 }
{
    entry(&t, i as usize, 0) as u32
}

/// A signal at semaphore i: its count goes up by 1, unless somebody waits there or it is the highest.
pub fn signalled(mut t: [u16; sizes::SEMAPHORES], i: u32, waiting: bool) -> [u16; sizes::SEMAPHORES]
    ensures { result ≡ signalled t i waiting }
{
    let n = entry(&t, i as usize, 0);
    if !waiting && n < HIGHEST_COUNT {
        set_entry(&mut t, i as usize, n + 1);
    }
    t
}

/// A wait that passes semaphore i: its count goes down by 1, unless it is 0.
pub fn claimed(mut t: [u16; sizes::SEMAPHORES], i: u32) -> [u16; sizes::SEMAPHORES]
    ensures { result ≡ claimed t i }
{
    let n = entry(&t, i as usize, 0);
    set_entry(&mut t, i as usize, n.saturating_sub(1));
    t
}
