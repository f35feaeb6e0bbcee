// A queue walked once, from its head on, with a note of each process that is met.
// The links may lead anywhere: they are followed for as many steps as there are processes.
// A note is one word and no struct: the walk writes one word and adds one number for each process that it meets.
ghost use Rattle.std.specs.Prelude.{◌≡◌};
ghost use Rattle.queues.specs.Lines.{line};
ghost use Rattle.queues.specs.Noted.{noted};

use rings::links::QUEUE_NODES;

const PROCESSES: u8 = sizes::PROCESSES as u8;

const QUEUES: u8 = sizes::QUEUES as u8;

/// How much each one ahead adds to a note.
pub const ONE_AHEAD: u32 = 65536;

/// Each process in queue q gets a note in the table: the mark, and so much more for each one ahead of it.
pub fn note(next: &[u8; QUEUE_NODES], at: &mut [u32; sizes::PROCESSES], q: u8, mark: u16)
    ensures { at.new ≡ noted at.old mark (line next.now q) }
{
    if QUEUES <= q {
        return;
    }
    let head = PROCESSES as usize + q as usize;
    let mut node = next[head];
    let mut word = mark as u32;
    for _ in 0..PROCESSES {
        if PROCESSES <= node {
            return;
        }
        let i = node as usize;
        at[i] = word;
        word += ONE_AHEAD;
        node = next[i];
    }
}
