// The image of a kernel: its struct as bytes at fixed offsets, in an area that is lent.
// An area may have any length: one that is not as long as an image is not written, and zeros are read of it.
#![tactic(auto)]

ghost use Rattle.std.specs.Prelude.{◌≡◌};
ghost use Rattle.image.specs.Image.{blank, Read, Written};

use boxes::{BOX_NODES, Boxes};
use kernel::{Kernel, Settings};
use mail::Mail;
use procs::Procs;
use queues::{QUEUE_NODES, Queues};
use sizes::{BUFFERS, Bid, Bids, MAILBOXES, PROCESSES, Pid, Pids, SEMAPHORES};

mod get;
mod layout;
mod put;

pub use layout::SIZE;

/// The kernel whose image the area is.
/// Not inlined, since its frame would be added to that of the call, and docs/BOARD.md bounds a call's stack.
#[inline(never)]
pub fn read(area: &[u8]) -> Kernel
    ensures { Read area.now result }
{
    if area.len() != layout::SIZE {
        return blank();
    }
    Kernel {
        procs: get::procs(area),
        mail: get::mail(area),
        count: get::halfwords(area, layout::COUNT),
        births: get::units(area, layout::BIRTHS),
        settings: get::settings(area),
    }
}

/// The area becomes the image of k.
pub fn write(area: &mut [u8], k: Kernel)
    ensures { Written k area.old area.new }
{
    if area.len() != layout::SIZE {
        return;
    }
    put::procs(area, k.procs);
    put::mail(area, k.mail);
    put::halfwords(area, layout::COUNT, k.count);
    put::units(area, layout::BIRTHS, k.births);
    put::settings(area, k.settings);
}

// The mail of a kernel whose every field is zero. It is no part of the code of its caller, where LLVM would make a call of `memset` of so many zeros.
#[inline(never)]
fn blank_mail() -> Mail
    ensures { result ≡ blank.mail }
{
    Mail {
        boxes: Boxes {
            next: [Bid(0); BOX_NODES],
            prev: [Bid(0); BOX_NODES],
        },
        hand: [Bid(0); PROCESSES],
        full: Pids(0),
        length: [0; BUFFERS],
        free: Bids(0),
        chain: [Bid(0); BUFFERS],
    }
}

// Every field is zero: no Option, since `Read` says so, and such a kernel is not sound, so every call answers it with 14.
fn blank() -> Kernel
    ensures { result ≡ blank }
{
    Kernel {
        procs: Procs {
            running: Pid(0),
            class: [0; PROCESSES],
            ticks: [0; PROCESSES],
            queues: Queues {
                next: [Pid(0); QUEUE_NODES],
                prev: [Pid(0); QUEUE_NODES],
            },
            ready: 0,
            unused: Pids(0),
        },
        mail: blank_mail(),
        count: [0; SEMAPHORES],
        births: [0; PROCESSES],
        settings: Settings {
            slice: 0,
            capacity: [0; MAILBOXES],
            mode: [0; MAILBOXES],
        },
    }
}
