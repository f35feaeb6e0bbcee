// The calls as the board's firmware makes them: numbers and lent areas of bytes in, an answer out.
// Each reads the image that lies in the state area, makes the kernel's call and writes the next image back.
// The exports have the form of C here too, under C's names, by which docs and tests know them: csengadrul, of which alone the archive is made, calls each by its own of that name.
#![tactic(auto)]

ghost use Rattle.std.specs.Prelude.{◌≡◌};
ghost use Rattle.plain.specs.Calls as Plain;
ghost use Rattle.plain.specs.State.{usual};
ghost use Rattle.reasons.specs.Reasons.{given, meant_by, Explains};
ghost use Rattle.board.specs.Area.{Lies, Plainly, Sends, Reads, Begins, HandedBack};
ghost use Rattle.board.specs.Reasons.{numbers_or_zeros, Reasons};

use kernel::{Answer, Done, Kernel};
use reasons::{Explained, Numbers, Reason};
use verdicts::{DONE, Refusal};

// The bytes of a state area.
pub use image::SIZE;

const USUAL_SLICE: u32 = sizes::USUAL_SLICE as u32;

/// Why a process waits, in numbers beside the answer; where the question is refused they are zeros. C reads each field by its name: so the
/// answer's three stand here too, the kind is a number and no enum, and a field that a kind does not need is 0.
#[repr(C)]
#[derive(Clone, Copy)]
pub struct Reasoned {
    pub code: u32,
    pub number: u32,
    pub running: u32,
    pub kind: u32,
    pub which: u32,
    pub ahead: u32,
}

// The image of the next state goes into the area, the answer to the caller. The area comes last: it is lent again only once the call is made.
// No function takes the call as a closure: tried with one, and with waiters that are asked for by is_empty, most calls cost some 115
// instructions more, and the deepest 5,240 bytes of stack, more than the 5,120 that docs/BOARD.md names.
fn hand_back(done: Done, state: &mut [u8]) -> Answer
    ensures { HandedBack done state.old state.new result }
{
    image::write(state, done.state);
    done.answer
}

// The area becomes the image of a fresh kernel, whatever it held; where that is refused it stays as it is.
fn begin(state: &mut [u8], slice: u32) -> Answer
    ensures { Begins slice state.old state.new result }
{
    if state.len() != SIZE {
        return Answer {
            code: Refusal::NotSound.code(),
            number: 0,
            running: 0,
        };
    }
    let done = Kernel::fresh_start(slice);
    if done.answer.code != DONE {
        return done.answer;
    }
    hand_back(done, state)
}

#[unsafe(no_mangle)]
pub extern "C" fn csengadrul_fresh(state: &mut [u8]) -> Answer
    ensures { Begins usual.slice state.old state.new result }
{
    begin(state, USUAL_SLICE)
}

#[unsafe(no_mangle)]
pub extern "C" fn csengadrul_fresh_slice(state: &mut [u8], slice: u32) -> Answer
    ensures { Begins slice state.old state.new result }
{
    begin(state, slice)
}

#[unsafe(no_mangle)]
pub extern "C" fn csengadrul_create(state: &mut [u8], class: u32) -> Answer
    ensures { Plainly (Plain.create class) state.old state.new result }
{
    hand_back(image::read(state).create(class), state)
}

#[unsafe(no_mangle)]
pub extern "C" fn csengadrul_stop(state: &mut [u8], name: u32) -> Answer
    ensures { Plainly (Plain.stop name) state.old state.new result }
{
    hand_back(image::read(state).stop(name), state)
}

#[unsafe(no_mangle)]
pub extern "C" fn csengadrul_end(state: &mut [u8]) -> Answer
    ensures { Plainly Plain.end state.old state.new result }
{
    hand_back(image::read(state).end(), state)
}

#[unsafe(no_mangle)]
pub extern "C" fn csengadrul_yield(state: &mut [u8]) -> Answer
    ensures { Plainly Plain.yield state.old state.new result }
{
    hand_back(image::read(state).yield_now(), state)
}

#[unsafe(no_mangle)]
pub extern "C" fn csengadrul_class(state: &mut [u8], class: u32) -> Answer
    ensures { Plainly (Plain.class class) state.old state.new result }
{
    hand_back(image::read(state).class(class), state)
}

#[unsafe(no_mangle)]
pub extern "C" fn csengadrul_tick(state: &mut [u8]) -> Answer
    ensures { Plainly Plain.tick state.old state.new result }
{
    hand_back(image::read(state).tick(), state)
}

#[unsafe(no_mangle)]
pub extern "C" fn csengadrul_mailbox(
    state: &mut [u8],
    mailbox: u32,
    capacity: u32,
    mode: u32,
) -> Answer
    ensures { Plainly (Plain.mailbox mailbox capacity mode) state.old state.new result }
{
    hand_back(image::read(state).mailbox(mailbox, capacity, mode), state)
}

#[unsafe(no_mangle)]
pub extern "C" fn csengadrul_send(
    state: &mut [u8],
    store: &mut [u8],
    mailbox: u32,
    message: &[u8],
) -> Answer
    ensures { Sends store.old mailbox message.now store.new state.old state.new result }
{
    hand_back(image::read(state).send(store, mailbox, message), state)
}

#[unsafe(no_mangle)]
pub extern "C" fn csengadrul_receive(state: &mut [u8], mailbox: u32) -> Answer
    ensures { Plainly (Plain.receive mailbox) state.old state.new result }
{
    hand_back(image::read(state).receive(mailbox), state)
}

#[unsafe(no_mangle)]
pub extern "C" fn csengadrul_read(state: &[u8], store: &[u8], room: &mut [u8]) -> Answer
    ensures { Reads store.now room.old room.new state.now result }
{
    let done = image::read(state).read(store, room);
    done.answer
}

#[unsafe(no_mangle)]
pub extern "C" fn csengadrul_release(state: &mut [u8]) -> Answer
    ensures { Plainly Plain.release state.old state.new result }
{
    hand_back(image::read(state).release(), state)
}

#[unsafe(no_mangle)]
pub extern "C" fn csengadrul_signal(state: &mut [u8], semaphore: u32) -> Answer
    ensures { Plainly (Plain.signal semaphore) state.old state.new result }
{
    hand_back(image::read(state).signal(semaphore), state)
}

#[unsafe(no_mangle)]
pub extern "C" fn csengadrul_wait(state: &mut [u8], semaphore: u32) -> Answer
    ensures { Plainly (Plain.wait semaphore) state.old state.new result }
{
    hand_back(image::read(state).wait(semaphore), state)
}

/// Why the process of that name of the state in the area waits.
pub fn why(state: &[u8], name: u32) -> Explained
    ensures { Explains Lies state.now name result }
{
    reasons::why(image::read(state), name)
}

// The numbers of a reason; where there is none they are zeros.
fn in_numbers(reason: Option<Reason>) -> Numbers
    ensures { result ≡ given (numbers_or_zeros (meant_by reason)) }
{
    reason.map(Numbers::from).unwrap_or_default()
}

#[unsafe(no_mangle)]
pub extern "C" fn csengadrul_why(state: &[u8], name: u32) -> Reasoned
    ensures { Reasons state.now name result }
{
    let w = why(state, name);
    let n = in_numbers(w.reason);
    Reasoned {
        code: w.answer.code,
        number: w.answer.number,
        running: w.answer.running,
        kind: n.kind,
        which: n.which,
        ahead: n.ahead,
    }
}
