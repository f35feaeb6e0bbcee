// Habits: how many messages each mailbox takes, and what it does when it is full.
// Every function answers for every table and every number: past the last mailbox all is as at the fresh start, and nothing changes.
#![tactic(auto)]

ghost use Rattle.std.specs.Prelude.{◌≡◌, eqb};
ghost use Rattle.plain.specs.Mailboxes.{Habits};
ghost use Rattle.rings.specs.Decides.{Decides};
ghost use Rattle.habits.specs.Tables.{capacity_in, mode_in};
ghost use Rattle.habits.specs.Size.{Size};

use sizes::{DROPPING, REFUSING};
use tables::entry;

const USUAL_CAPACITY: u8 = sizes::USUAL_CAPACITY as u8;

const MOST_QUEUED: u8 = sizes::MOST_QUEUED as u8;

/// How many messages mailbox m takes.
pub fn capacity_of(capacity: [u8; sizes::MAILBOXES], m: u32) -> u32
    ensures { result ≡ capacity_in capacity m }
{
    entry(&capacity, m as usize, USUAL_CAPACITY) as u32
}

/// Whether mailbox m drops its oldest message when it is full.
pub fn drops(mode: [u8; sizes::MAILBOXES], m: u32) -> bool
    ensures { result ≡ eqb (mode_in mode m) 1 }
{
    entry(&mode, m as usize, REFUSING) == DROPPING
}

// Whether a mailbox may be set to take so many messages and to be of this mode. By `&`, which makes no jumps: so several mailboxes are asked at once.
fn is_size(capacity: u8, mode: u8) -> bool
    ensures { Decides result (Size capacity mode) }
{
    (1 <= capacity) & (capacity <= MOST_QUEUED) & (mode <= DROPPING)
}

/// Whether every mailbox may be set so. All are asked, with no early exit.
pub fn may_be_set(capacity: [u8; sizes::MAILBOXES], mode: [u8; sizes::MAILBOXES]) -> bool
    ensures { Decides result (Habits (capacity_in capacity) (mode_in mode)) }
{
    (0..sizes::MAILBOXES).fold(true, |all, m| all & is_size(capacity[m], mode[m]))
}
