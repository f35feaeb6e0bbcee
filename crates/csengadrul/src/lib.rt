// The calls for C firmware: the archive that firmware links is made of this crate alone.
// Each export is the call of its name in board or listing, and promises what that promises, in the same words.
// It stands here again, since a crate is a library or a static library, and board and listing are libraries of other crates.
#![tactic(auto)]

ghost use Rattle.plain.specs.Calls as Plain;
ghost use Rattle.plain.specs.State.{usual};
ghost use Rattle.board.specs.Area.{Plainly, Sends, Reads, Begins};
ghost use Rattle.board.specs.Reasons.{Reasons};
ghost use Rattle.listing.specs.Listed.{Lists};

use board::Reasoned;
use kernel::Answer;
use rows::Row;

#[unsafe(no_mangle)]
pub extern "C" fn csengadrul_fresh(state: &mut [u8]) -> Answer
    ensures { Begins usual.slice state.old state.new result }
{
    board::csengadrul_fresh(state)
}

#[unsafe(no_mangle)]
pub extern "C" fn csengadrul_fresh_slice(state: &mut [u8], slice: u32) -> Answer
    ensures { Begins slice state.old state.new result }
{
    board::csengadrul_fresh_slice(state, slice)
}

#[unsafe(no_mangle)]
pub extern "C" fn csengadrul_create(state: &mut [u8], class: u32) -> Answer
    ensures { Plainly (Plain.create class) state.old state.new result }
{
    board::csengadrul_create(state, class)
}

#[unsafe(no_mangle)]
pub extern "C" fn csengadrul_stop(state: &mut [u8], name: u32) -> Answer
    ensures { Plainly (Plain.stop name) state.old state.new result }
{
    board::csengadrul_stop(state, name)
}

#[unsafe(no_mangle)]
pub extern "C" fn csengadrul_end(state: &mut [u8]) -> Answer
    ensures { Plainly Plain.end state.old state.new result }
{
    board::csengadrul_end(state)
}

#[unsafe(no_mangle)]
pub extern "C" fn csengadrul_yield(state: &mut [u8]) -> Answer
    ensures { Plainly Plain.yield state.old state.new result }
{
    board::csengadrul_yield(state)
}

#[unsafe(no_mangle)]
pub extern "C" fn csengadrul_class(state: &mut [u8], class: u32) -> Answer
    ensures { Plainly (Plain.class class) state.old state.new result }
{
    board::csengadrul_class(state, class)
}

#[unsafe(no_mangle)]
pub extern "C" fn csengadrul_tick(state: &mut [u8]) -> Answer
    ensures { Plainly Plain.tick state.old state.new result }
{
    board::csengadrul_tick(state)
}

#[unsafe(no_mangle)]
pub extern "C" fn csengadrul_mailbox(
    state: &mut [u8],
    mailbox: u32,
    capacity: u32,
    mode: u32,
) -> Answer
    ensures { Plainly (Plain.mailbox mailbox capacity mode) state.old state.new result }
{
    board::csengadrul_mailbox(state, mailbox, capacity, mode)
}

#[unsafe(no_mangle)]
pub extern "C" fn csengadrul_send(
    state: &mut [u8],
    store: &mut [u8],
    mailbox: u32,
    message: &[u8],
) -> Answer
    ensures { Sends store.old mailbox message.now store.new state.old state.new result }
{
    board::csengadrul_send(state, store, mailbox, message)
}

#[unsafe(no_mangle)]
pub extern "C" fn csengadrul_receive(state: &mut [u8], mailbox: u32) -> Answer
    ensures { Plainly (Plain.receive mailbox) state.old state.new result }
{
    board::csengadrul_receive(state, mailbox)
}

#[unsafe(no_mangle)]
pub extern "C" fn csengadrul_read(state: &[u8], store: &[u8], room: &mut [u8]) -> Answer
    ensures { Reads store.now room.old room.new state.now result }
{
    board::csengadrul_read(state, store, room)
}

#[unsafe(no_mangle)]
pub extern "C" fn csengadrul_release(state: &mut [u8]) -> Answer
    ensures { Plainly Plain.release state.old state.new result }
{
    board::csengadrul_release(state)
}

#[unsafe(no_mangle)]
pub extern "C" fn csengadrul_signal(state: &mut [u8], semaphore: u32) -> Answer
    ensures { Plainly (Plain.signal semaphore) state.old state.new result }
{
    board::csengadrul_signal(state, semaphore)
}

#[unsafe(no_mangle)]
pub extern "C" fn csengadrul_wait(state: &mut [u8], semaphore: u32) -> Answer
    ensures { Plainly (Plain.wait semaphore) state.old state.new result }
{
    board::csengadrul_wait(state, semaphore)
}

#[unsafe(no_mangle)]
pub extern "C" fn csengadrul_why(state: &[u8], name: u32) -> Reasoned
    ensures { Reasons state.now name result }
{
    board::csengadrul_why(state, name)
}

#[unsafe(no_mangle)]
pub extern "C" fn csengadrul_listing(state: &[u8], rows: &mut [Row]) -> Answer
    ensures { Lists rows.old rows.new state.now result }
{
    listing::csengadrul_listing(state, rows)
}
