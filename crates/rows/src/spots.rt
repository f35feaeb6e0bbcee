// Where everyone stands: every queue walked once from its head, and of each process that is met its place, which and position noted.
// The links may lead anywhere. A note is one word, as the walk writes it: place, which and position are taken apart where a row or a reason is made.
ghost use Rattle.std.specs.Prelude.{◌+◌, ◌≤◌, map, ◌≡◌, eqb, get_or, if◌then◌else◌};
ghost use Rattle.plain.specs.Sizes.{queues};
ghost use Rattle.queues.specs.Queue.{num};
ghost use Rattle.procs.specs.Stands as Stands;
ghost use Rattle.rows.specs.Places.{spot, coded, spot_from, swept, everyone, spot_in, spot_of, Spots};

use crate::{AT_MAILBOX, AT_SEMAPHORE, READY, RUNNING};
use procs::Procs;
use queues::notes::{ONE_AHEAD, note};
use queues::{QUEUE_NODES, bytes_of};
use sizes::{PROCESSES, Pid};
use tables::{entry, set_entry};

// So many stand in a queue at most.
const MOST: u32 = PROCESSES as u32;

const CLASSES: u8 = sizes::CLASSES as u8;

const MAILBOXES: u8 = sizes::MAILBOXES as u8;

const SEMAPHORES: u8 = sizes::SEMAPHORES as u8;

const AT_MAILBOXES: u8 = sizes::AT_MAILBOXES as u8;

const AT_SEMAPHORES: u8 = sizes::AT_SEMAPHORES as u8;

/// The first three columns of a row: numbers, as C reads them there and as `spot`, `spot_from` and `spot_in` of specs/Places.antt say them.
#[derive(Clone, Copy)]
pub struct Spot {
    pub place: u8,
    pub which: u8,
    pub position: u8,
}

// A place, and which of its queues, for everyone in that queue.
fn mark(place: u8, which: u8) -> u16
    ensures { result ≡ coded place which 0 }
{
    place as u16 + 256 * which as u16
}

// Everyone in so many queues, from the first one on, gets this place.
fn sweep(next: &[u8; QUEUE_NODES], at: &mut [u32; PROCESSES], place: u8, first: u8, count: u8)
    requires { first + count ≤ queues }
    ensures { at.new ≡ swept next.now place first count at.old }
{
    for i in 0..count {
        note(next, at, first + i, mark(place, i));
    }
}

// The spot of each process as one number, 0 where it stands in no queue.
pub(crate) fn everyone(next: [Pid; QUEUE_NODES]) -> [u32; PROCESSES]
    ensures { result ≡ everyone (map num next) }
{
    let links = bytes_of(next);
    let mut at = [0u32; PROCESSES];
    sweep(&links, &mut at, READY, 0, CLASSES);
    sweep(&links, &mut at, AT_MAILBOX, AT_MAILBOXES, MAILBOXES);
    sweep(&links, &mut at, AT_SEMAPHORE, AT_SEMAPHORES, SEMAPHORES);
    at
}

// A spot from its number.
pub(crate) fn spot_from(w: u32) -> Spot
    ensures { result ≡ spot_from w }
{
    Spot {
        place: (w % 256) as u8,
        which: (w / 256 % 256) as u8,
        position: (w / ONE_AHEAD % MOST) as u8,
    }
}

/// Where p stands in the queues.
pub fn spot_of(next: [Pid; QUEUE_NODES], p: Pid) -> Spot
    ensures { result ≡ spot_in (map num next) p.0 }
{
    let at = everyone(next);
    spot_from(entry(&at, p.0 as usize, 0))
}

// With the spot of the one that runs, of that class.
fn with_runner(at: &mut [u32; PROCESSES], running: Pid, class: u8)
    ensures { Spots (λ p. if eqb p running.0 then spot 1 class 0 else spot_from (get_or at.old p 0)) at.new }
{
    set_entry(at, running.0 as usize, mark(RUNNING, class) as u32);
}

// The spot of each process as one number, that of the one that runs included.
pub(crate) fn spots_of(k: Procs) -> [u32; PROCESSES]
    ensures { Spots (spot_of (Stands.numbers k)) result }
{
    let mut at = everyone(k.queues.next);
    with_runner(&mut at, k.running, k.class_of(k.running));
    at
}
