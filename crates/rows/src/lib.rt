// The rows of all processes in a listing, by value.
// Any struct has rows, wherever its links lead.
#![tactic(auto)]

ghost use Rattle.std.specs.Prelude.{◌≡◌};
ghost use Rattle.mail.specs.Carries as Carries;
ghost use Rattle.rows.specs.Row.{bare};
ghost use Rattle.rows.specs.Rows.{null_row, held_by, row_with, Shows};

use crate::spots::{Spot, spot_from, spots_of};
use kernel::Kernel;
use mail::Mail;
use sizes::Pid;

pub mod spots;

/// The places of a row: numbers, since C reads them in its first column.
pub const UNUSED: u8 = 0;

pub const RUNNING: u8 = 1;

pub const READY: u8 = 2;

pub const AT_MAILBOX: u8 = 3;

pub const AT_SEMAPHORE: u8 = 4;

pub const STANDING_BY: u8 = 5;

#[repr(C)]
#[derive(Clone, Copy, Default)]
pub struct Row {
    pub place: u8,
    pub which: u8,
    pub position: u8,
    pub class: u8,
    pub ticks: u8,
    /// 0 or 1, since C reads it.
    pub full: u8,
    pub length: u16,
}

/// A row for each process, row i for process i. A type of its own, since the theorem OneTable is about it.
#[derive(Clone, Copy)]
pub struct Table {
    pub rows: [Row; sizes::PROCESSES],
}

// Zeros after the place.
fn bare(place: u8) -> Row
    ensures { result ≡ bare place }
{
    Row {
        place,
        ..Row::default()
    }
}

// The row of process 0.
fn null_row(running: Pid) -> Row
    ensures { result ≡ null_row running.0 }
{
    if running == Pid(0) {
        return bare(RUNNING);
    }
    bare(STANDING_BY)
}

// The length of the message in the hand of p, where there is one.
#[tactic(auto, unfolding(crate::specs::Rows::held_by))]
fn hand_of(mail: Mail, p: Pid) -> Option<u16>
    ensures { result ≡ held_by (Carries.numbers mail) p.0 }
{
    mail.has_message(p).then_some(mail.length_in_hand(p))
}

fn row_with(s: Spot, class: u8, ticks: u8, hand: Option<u16>) -> Row
    ensures { result ≡ row_with s class ticks hand }
{
    Row {
        place: s.place,
        which: s.which,
        position: s.position,
        class,
        ticks,
        full: hand.is_some() as u8,
        length: hand.unwrap_or(0),
    }
}

/// The spots are found for all at once; then each row is made.
pub fn table_of(k: Kernel) -> Table
    ensures { Shows k result }
{
    // Copied out first: read from within, the whole state would be copied once more, and docs/BOARD.md has a bound for a listing's stack.
    let mail = k.mail;
    let class = k.procs.class;
    let ticks = k.procs.ticks;
    let at = spots_of(k.procs);
    let mut rows = [bare(UNUSED); sizes::PROCESSES];
    for i in 0..sizes::PROCESSES {
        rows[i] = row_with(
            spot_from(at[i]),
            class[i],
            ticks[i],
            hand_of(mail, Pid(i as u8)),
        );
    }
    rows[0] = null_row(k.procs.running);
    Table { rows }
}
