// Writing: numbers, arrays and structs as bytes into an area, at their places.
// The area may have any length: what has no room in it is not written.
ghost use Rattle.std.specs.Prelude.{◌*◌};
ghost use Rattle.image.specs.Bytes.{byte, le, each, Put};
ghost use Rattle.image.specs.Image.{procs_long, boxes_long, mail_long, settings_at, settings_long, procs, boxes, mail, settings};

use crate::layout;
use boxes::Boxes;
use kernel::Settings;
use mail::Mail;
use procs::Procs;
use sizes::Unit;
use tables::has_room;

// An array comes by value and is copied in a loop: of one that is lent, or by `copy_from_slice`, LLVM cannot tell that the area is another place, leaves `write` out of its callers, and makes them call `memset`.
pub(crate) fn units<T: Unit, const N: usize>(area: &mut [u8], at: usize, xs: [T; N])
    ensures { Put at N (each (λ x. byte (T.num x)) xs) area.old area.new }
{
    if has_room(area.len(), at, N) {
        for i in 0..N {
            area[at + i] = xs[i].number();
        }
    }
}

fn byte(area: &mut [u8], at: usize, x: u8)
    ensures { Put at 1 (byte x) area.old area.new }
{
    units(area, at, [x]);
}

fn word(area: &mut [u8], at: usize, x: u32)
    ensures { Put at 4 (le 4 x) area.old area.new }
{
    units(area, at, x.to_le_bytes());
}

// Two bytes to an entry: an array of 2 * N bytes, which `units` would take, cannot be named.
pub(crate) fn halfwords<const N: usize>(area: &mut [u8], at: usize, xs: [u16; N])
    ensures { Put at (2 * N) (each (le 2) xs.entry) area.old area.new }
{
    if has_room(area.len(), at, 2 * N) {
        for i in 0..N {
            let n = at + 2 * i;
            let [low, high] = xs[i].to_le_bytes();
            area[n] = low;
            area[n + 1] = high;
        }
    }
}

pub(crate) fn procs(area: &mut [u8], p: Procs)
    ensures { Put 0 procs_long (procs p) area.old area.new }
{
    byte(area, layout::RUNNING, p.running.0);
    units(area, layout::CLASS, p.class);
    units(area, layout::TICKS, p.ticks);
    units(area, layout::NEXT, p.queues.next);
    units(area, layout::PREV, p.queues.prev);
    word(area, layout::READY, p.ready);
    word(area, layout::UNUSED, p.unused.0);
}

fn boxes(area: &mut [u8], b: Boxes)
    ensures { Put procs_long boxes_long (boxes b) area.old area.new }
{
    units(area, layout::BOX_NEXT, b.next);
    units(area, layout::BOX_PREV, b.prev);
}

pub(crate) fn mail(area: &mut [u8], m: Mail)
    ensures { Put procs_long mail_long (mail m) area.old area.new }
{
    boxes(area, m.boxes);
    units(area, layout::HAND, m.hand);
    word(area, layout::FULL, m.full.0);
    halfwords(area, layout::LENGTH, m.length);
    word(area, layout::FREE, m.free.0);
    units(area, layout::CHAIN, m.chain);
}

pub(crate) fn settings(area: &mut [u8], x: Settings)
    ensures { Put settings_at settings_long (settings x) area.old area.new }
{
    byte(area, layout::SLICE, x.slice);
    units(area, layout::CAPACITY, x.capacity);
    units(area, layout::MODE, x.mode);
}
