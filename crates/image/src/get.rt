// Reading: numbers, arrays and structs from the bytes of an area, at their places.
// The area may have any length: where it has all the bytes of a field, the field is what they say.
ghost use Rattle.std.specs.Prelude.{◌*◌};
ghost use Rattle.image.specs.Bytes.{byte, le, each, Got};
ghost use Rattle.image.specs.Image.{procs_long, boxes_long, mail_long, settings_at, settings_long, procs, boxes, mail, settings};

use crate::layout;
use boxes::Boxes;
use kernel::Settings;
use mail::Mail;
use procs::Procs;
use queues::Queues;
use sizes::{Bids, Pid, Pids, Unit};
use tables::has_room;

pub(crate) fn units<T: Unit, const N: usize>(area: &[u8], at: usize) -> [T; N]
    ensures { Got at N (each (λ x. byte (T.num x)) result) area.now }
{
    let mut out = [T::of(0); N];
    if has_room(area.len(), at, N) {
        for i in 0..N {
            out[i] = T::of(area[at + i]);
        }
    }
    out
}

fn byte(area: &[u8], at: usize) -> u8
    ensures { Got at 1 (byte result) area.now }
{
    units::<u8, 1>(area, at)[0]
}

fn word(area: &[u8], at: usize) -> u32
    ensures { Got at 4 (le 4 result) area.now }
{
    u32::from_le_bytes(units(area, at))
}

// Two bytes to an entry: an array of 2 * N bytes, which `units` would take, cannot be named.
pub(crate) fn halfwords<const N: usize>(area: &[u8], at: usize) -> [u16; N]
    ensures { Got at (2 * N) (each (le 2) result) area.now }
{
    let mut out = [0u16; N];
    if has_room(area.len(), at, 2 * N) {
        for i in 0..N {
            let n = at + 2 * i;
            out[i] = u16::from_le_bytes([area[n], area[n + 1]]);
        }
    }
    out
}

pub(crate) fn procs(area: &[u8]) -> Procs
    ensures { Got 0 procs_long (procs result) area.now }
{
    Procs {
        running: Pid(byte(area, layout::RUNNING)),
        class: units(area, layout::CLASS),
        ticks: units(area, layout::TICKS),
        queues: Queues {
            next: units(area, layout::NEXT),
            prev: units(area, layout::PREV),
        },
        ready: word(area, layout::READY),
        unused: Pids(word(area, layout::UNUSED)),
    }
}

fn boxes(area: &[u8]) -> Boxes
    ensures { Got procs_long boxes_long (boxes result) area.now }
{
    Boxes {
        next: units(area, layout::BOX_NEXT),
        prev: units(area, layout::BOX_PREV),
    }
}

pub(crate) fn mail(area: &[u8]) -> Mail
    ensures { Got procs_long mail_long (mail result) area.now }
{
    Mail {
        boxes: boxes(area),
        hand: units(area, layout::HAND),
        full: Pids(word(area, layout::FULL)),
        length: halfwords(area, layout::LENGTH),
        free: Bids(word(area, layout::FREE)),
        chain: units(area, layout::CHAIN),
    }
}

pub(crate) fn settings(area: &[u8]) -> Settings
    ensures { Got settings_at settings_long (settings result) area.now }
{
    Settings {
        slice: byte(area, layout::SLICE),
        capacity: units(area, layout::CAPACITY),
        mode: units(area, layout::MODE),
    }
}
