// Whether processes and mail fit each other: nothing lies where a process waits, and only those hold a message who may. Assumes nothing.
#![tactic(auto)]

ghost use Rattle.std.specs.Prelude.{map, get_or};
ghost use Rattle.boxes.specs.Box.{num};
ghost use Rattle.rings.specs.Decides.{Decides};
ghost use Rattle.waits.specs.Waits.{HandFits, LyingFits, WaitFits, AllFit, is_holding};

use boxes::{BOX_NODES, bytes_of};
use sizes::{BUFFERS, Bid, PROCESSES, Pid, Pids};

// Places are 0 for none and queue number + 1: those of mailbox waiters begin here, those of semaphore waiters after them, and then there are no more.
// Bytes, and no Option: one range of bytes says who waits at a mailbox, another who waits at a semaphore.
const AT_MAILBOXES: u8 = sizes::AT_MAILBOXES as u8 + 1;

const AT_SEMAPHORES: u8 = sizes::AT_SEMAPHORES as u8 + 1;

const NO_PLACE: u8 = sizes::QUEUES as u8 + 1;

// Whether a process with this place may have a full hand: one that runs, is ready or waits at a semaphore.
fn may_hold(place: u8, runs: bool) -> bool
    ensures { Decides result (HandFits place runs) }
{
    match place {
        0 => runs,
        AT_MAILBOXES..AT_SEMAPHORES => false,
        _ => true,
    }
}

// Whether nothing lies, and nothing is counted, where a process with this place waits.
fn lies_nothing(place: u8, next: &[u8; BOX_NODES], count: &[u16; sizes::SEMAPHORES]) -> bool
    ensures { Decides result (LyingFits place (is_holding next.now) (λ i. get_or count.now i 0)) }
{
    match place {
        AT_MAILBOXES..AT_SEMAPHORES => {
            let first = next[BUFFERS + (place - AT_MAILBOXES) as usize];
            BUFFERS <= first as usize
        }
        AT_SEMAPHORES..NO_PLACE => count[(place - AT_SEMAPHORES) as usize] == 0,
        _ => true,
    }
}

// Whether a process fits what lies where it waits, and a full hand its place.
fn wait_fits(
    place: u8,
    runs: bool,
    full: bool,
    next: &[u8; BOX_NODES],
    count: &[u16; sizes::SEMAPHORES],
) -> bool
    ensures { Decides result (WaitFits place runs full (is_holding next.now) (λ i. get_or count.now i 0)) }
{
    (!full || may_hold(place, runs)) && lies_nothing(place, next, count)
}

/// Whether all of them do, and process 0 has an empty hand.
pub fn all_fit(
    at: [u8; PROCESSES],
    running: Pid,
    full: Pids,
    next: [Bid; BOX_NODES],
    count: [u16; sizes::SEMAPHORES],
) -> bool
    ensures { Decides result (AllFit at running.0 full.0 (map num next) count) }
{
    if bits::has_bit(full.0, 0) {
        return false;
    }
    let links = bytes_of(next);
    (1..PROCESSES).all(|p| {
        let runs = Pid(p as u8) == running;
        wait_fits(at[p], runs, bits::has_bit(full.0, p as u32), &links, &count)
    })
}
