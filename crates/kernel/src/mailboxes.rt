// mailbox, and what a full mailbox does with one message more.
ghost use Rattle.std.specs.Prelude.{◌≡◌, ◌%◌};
ghost use Rattle.plain.specs.Calls as Plain;
ghost use Rattle.plain.specs.Sizes.{mailboxes, at_mailbox};
ghost use Rattle.kernel.specs.Full.{is_full_at, drops_at, fullness_at, busy_at};
ghost use Rattle.kernel.specs.Promise.{Plainly};

use crate::{Done, Kernel, PROCESSES};
use verdicts::DONE;

pub(crate) const MAILBOXES: u32 = sizes::MAILBOXES as u32;

// The queue of the waiters at mailbox 0.
const FIRST_QUEUE: u32 = sizes::AT_MAILBOXES as u32;

// The queue of the waiters at mailbox m, or past the last one at that which m wraps to: the sum may not wrap for any m.
pub(crate) fn waiters_at_mailbox(m: u32) -> u32
    ensures { result ≡ at_mailbox (m % mailboxes) }
{
    FIRST_QUEUE + m % MAILBOXES
}

// What a mailbox does with one message more: it has room for it, it refuses it, or it loses its oldest one for it.
#[derive(Clone, Copy, PartialEq, Eq)]
pub(crate) enum Fullness {
    HasRoom,
    Refuses,
    Overflows,
}

impl Kernel {
    // Whether mailbox m holds as many messages as it takes. Not inlined: its frame would be added to that of send, and a call's stack is bounded.
    #[inline(never)]
    fn is_full(self, m: u32) -> bool
        ensures { result ≡ is_full_at self m }
    {
        self.mail
            .is_full_box(m, habits::capacity_of(self.settings.capacity, m))
    }

    // Whether mailbox m drops its oldest message when it is full.
    fn drops(self, m: u32) -> bool
        ensures { result ≡ drops_at self m }
    {
        habits::drops(self.settings.mode, m)
    }

    // What mailbox m does with one message more.
    pub(crate) fn fullness(self, m: u32) -> Fullness
        ensures { result ≡ fullness_at self m }
    {
        if !self.is_full(m) {
            return Fullness::HasRoom;
        }
        if self.drops(m) {
            Fullness::Overflows
        } else {
            Fullness::Refuses
        }
    }

    // Whether mailbox m has messages or waiters. It is asked of any m, before the verdict, which looks at it only where there is such a mailbox;
    // past the last one there are no messages, and the waiters are those at the mailbox that m wraps to.
    fn is_busy(self, m: u32) -> bool
        ensures { result ≡ busy_at self m }
    {
        !self.mail.is_empty_box(m) || self.procs.first(waiters_at_mailbox(m)).0 < PROCESSES
    }

    pub fn mailbox(self, m: u32, capacity: u32, mode: u32) -> Done
        ensures { Plainly (Plain.mailbox m capacity mode) self result }
    {
        let f = self.facts();
        if let Err(r) = verdicts::on_mailbox(f, m, capacity, mode, self.is_busy(m)) {
            return self.refuse(r);
        }
        let next = self
            .settings
            .allotted(m, (capacity % 256) as u8, (mode % 256) as u8);
        self.with_settings(next).answer(DONE, 0)
    }
}
