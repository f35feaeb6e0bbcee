// Whether a struct holds the sound process part of a state: its queues, who runs, each process's block, and the bits of the ready classes
// and of the unused processes, where a full slice has `slice` ticks. Nothing is assumed of what stands in the fields, nor of `slice`. In `at`
// a process has 0 if it stands in no queue, else the number of its queue plus 1: bytes and no Options, so that several are compared at once.
#![tactic(auto)]

ghost use Rattle.std.specs.Prelude.{◌≡◌, map};
ghost use Rattle.bits.specs.Word.{width, word};
ghost use Rattle.rings.specs.Decides.{Decides};
ghost use Rattle.plain.specs.Sizes.{classes};
ghost use Rattle.queues.specs.Queue.{num, tables_of};
ghost use Rattle.procs.specs.Stands.{numbers};
ghost use Rattle.seats.specs.Seats.{Decision};
ghost use Rattle.seats.specs.Fits.{Found, Block, Bare, Asked, AllSeats, ready_in, Topmost, Fits};

use procs::Procs;
use queues::{QUEUE_NODES, Queues, bytes_of};
use sizes::{PROCESSES, Pid};

const CLASSES: u8 = sizes::CLASSES as u8;

// In which queue each process stands, where the links are rings.
fn places_of(queues: Queues) -> Option<[u8; PROCESSES]>
    ensures { Found (tables_of queues) result }
{
    rings::standing(&bytes_of(queues.next), &bytes_of(queues.prev), PROCESSES)
}

// Where a process stands, and its block.
#[derive(Clone, Copy)]
struct Seat {
    at: u8,
    class: u8,
    ticks: u8,
}

impl Seat {
    // Whether a used process, which runs or stands in a queue, may have this class and these ticks.
    fn block_fits(self, slice: u8) -> bool
        ensures { Decides result (Block slice self.at self.class self.ticks) }
    {
        if CLASSES <= self.class || self.ticks < 1 || slice < self.ticks {
            return false;
        }
        match self.at {
            0 => true,
            1..=CLASSES => self.at == self.class + 1,
            _ => self.ticks == slice,
        }
    }

    // Whether a process stands in no queue, and its block carries zeros.
    fn is_vacant(self) -> bool
        ensures { Decides result (Bare self.at self.class self.ticks) }
    {
        self.at == 0 && self.class == 0 && self.ticks == 0
    }

    // Whether a process is in exactly one place, and its block is as that place asks. Of one that is unused it is not asked here whether it runs.
    fn fits(self, runs: bool, unused: bool, slice: u8) -> bool
        ensures { Decides result (Asked slice self.at runs self.class self.ticks unused) }
    {
        if unused {
            return self.is_vacant();
        }
        runs == (self.at == 0) && self.block_fits(slice)
    }
}

// Whether every process has its seat; 0 has that of an unused one. All are asked, with no early exit: so compiled, several at once.
fn seats_fit(k: &Procs, at: [u8; PROCESSES], slice: u8) -> bool
    ensures { Decides result (AllSeats slice k.now.running.0 at k.now.class k.now.ticks k.now.unused.0) }
{
    let running = k.running.0;
    if bits::has_bit(k.unused.0, 0) || bits::has_bit(k.unused.0, running as u32) {
        return false;
    }
    let vacant = bits::put_bit(k.unused.0, 0, true);
    (0..PROCESSES).fold(true, |all, p| {
        let seat = Seat {
            at: at[p],
            class: k.class[p],
            ticks: k.ticks[p],
        };
        all & seat.fits(running == p as u8, bits::has_bit(vacant, p as u32), slice)
    })
}

// A bit for each class that has someone ready: the node after the head of its queue is a process.
fn ready_word(next: [Pid; QUEUE_NODES]) -> u32
    ensures { result ≡ word width (ready_in classes (map num next)) }
{
    let mut w = 0u32;
    for c in 0..CLASSES {
        let first = next[PROCESSES + c as usize];
        w = bits::put_bit(w, c as u32, (first.0 as usize) < PROCESSES);
    }
    w
}

// Whether no class above the runner's has someone ready, and none at all where 0 runs.
fn is_topmost(running: usize, class: u8, ready: u32) -> bool
    ensures { Decides result (Topmost running class ready) }
{
    if ready == 0 {
        return true;
    }
    if running == 0 {
        return false;
    }
    bits::highest_bit(ready) <= class as u32
}

// Whether all but the links is sound, where each process stands as `at` says.
fn procs_fit(k: Procs, at: [u8; PROCESSES], slice: u8) -> bool
    ensures { Decides result (Fits slice (numbers k) at) }
{
    let running = k.running.0 as usize;
    if PROCESSES <= running {
        return false;
    }
    if !seats_fit(&k, at, slice) {
        return false;
    }
    if k.ready != ready_word(k.queues.next) {
        return false;
    }
    is_topmost(running, k.class[running], k.ready)
}

/// In which queue each process stands, where k holds the sound process part of a state.
pub fn seated(k: Procs, slice: u8) -> Option<[u8; PROCESSES]>
    ensures { Decision slice (numbers k) result }
{
    let at = places_of(k.queues)?;
    procs_fit(k, at, slice).then_some(at)
}
