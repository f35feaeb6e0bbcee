// The bytes of a message in the store, over the buffers to which the links lead.
// Any store, any room, any links and any length are taken: a piece for which there is no place is left out.
#![tactic(auto)]

ghost use Rattle.std.specs.Prelude.{◌≡◌, map, ◌*◌, length};
ghost use Rattle.plain.specs.Sizes.{buffer_size};
ghost use Rattle.plain.specs.Pages.{needed};
ghost use Rattle.chains.specs.Links.{num, run};
ghost use Rattle.pages.specs.Pieces.{placed, pieced, laid, filled};

use chains::next;
use sizes::{BUFFER_SIZE, BUFFERS, Bid};
use tables::has_room;

// All of src goes into dst from at on, where there is place for it. By a loop, of which LLVM makes a call of `memcpy`: `copy_from_slice` of a length that is not known when it is compiled would call `memmove`, which firmware need not have.
#[tactic(auto, unfolding(crate::specs::Pieces::placed))]
fn place(dst: &mut [u8], at: usize, src: &[u8])
    ensures { dst.new ≡ placed dst.old at src.now }
{
    if has_room(dst.len(), at, src.len()) {
        for i in 0..src.len() {
            dst[at + i] = src[i];
        }
    }
}

// The n bytes of src from `from` on go into dst from at on, where src has them and dst has place for them.
#[tactic(auto, unfolding(crate::specs::Pieces::pieced))]
fn place_part(dst: &mut [u8], at: usize, src: &[u8], from: usize, n: usize)
    ensures { dst.new ≡ pieced dst.old at src.now from n }
{
    if has_room(src.len(), from, n) {
        let to = from + n;
        place(dst, at, &src[from..to]);
    }
}

// Where buffer b begins in the store.
#[tactic(auto, unfolding(plain::specs::Sizes::buffer_size))]
fn start_of(b: Bid) -> usize
    ensures { result ≡ buffer_size * b.0 }
{
    BUFFER_SIZE * b.0 as usize
}

/// The bytes of a message over the buffers from b on, and no other byte of the store. A piece for which the store has no place is not written.
pub fn pour(store: &mut [u8], chain: &[Bid; BUFFERS], b: Bid, message: &[u8])
    ensures { store.new ≡ laid store.old (run (map num chain.now) (needed (length message.now)) b.0) message.now }
{
    let mut into = b;
    for piece in message.chunks(BUFFER_SIZE) {
        place(store, start_of(into), piece);
        into = next(chain, into);
    }
}

/// The first `size` bytes of what stands in the buffers from b on go to the start of the room, and no other byte of it changes.
/// A piece that the store does not have, or for which the room has no place, is not copied.
pub fn gather(store: &[u8], chain: &[Bid; BUFFERS], b: Bid, size: usize, room: &mut [u8])
    ensures { room.new ≡ filled room.old 0 store.now (run (map num chain.now) (needed size) b.0) size }
{
    let mut from = b;
    for at in (0..size).step_by(BUFFER_SIZE) {
        place_part(room, at, store, start_of(from), BUFFER_SIZE.min(size - at));
        from = next(chain, from);
    }
}
