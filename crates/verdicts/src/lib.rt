// The answer of a call, and the verdict on it: which of its refusals comes first, from what the kernel reads off its state. Every function
// answers for all numbers.
#![tactic(auto)]

ghost use Rattle.std.specs.Prelude.{not, ◌||◌, [], ◌∷◌, ◌≡◌, eqb, ltb};
ghost use Rattle.plain.specs.Calls.{on, no_class, no_mailbox, no_semaphore};
ghost use Rattle.plain.specs.Listing.{few_rows};
ghost use Rattle.plain.specs.Mailboxes.{no_size};
ghost use Rattle.plain.specs.Start.{start_refusals};
ghost use Rattle.plain.specs.Sizes.{processes, longest, highest_count, store_size};
ghost use Rattle.verdicts.specs.Chain.{found};
ghost use Rattle.verdicts.specs.Told.{code_of, number_of, told};

use sizes::Pid;

const PROCESSES: u32 = sizes::PROCESSES as u32;

const CLASSES: u32 = sizes::CLASSES as u32;

const MAILBOXES: u32 = sizes::MAILBOXES as u32;

const MOST_QUEUED: u32 = sizes::MOST_QUEUED as u32;

const DROPPING: u32 = sizes::DROPPING as u32;

const SEMAPHORES: u32 = sizes::SEMAPHORES as u32;

const HIGHEST_COUNT: u32 = sizes::HIGHEST_COUNT as u32;

const LONGEST_SLICE: u32 = sizes::LONGEST_SLICE as u32;

/// The codes of a call that is done. With the second one the caller waits now.
pub const DONE: u32 = 0;

pub const WAITS: u32 = 32;

/// What a call is answered. The code is a number and no enum, for C: firmware gets this struct as it is, and reads the code as a number.
#[repr(C)]
#[derive(Clone, Copy)]
pub struct Answer {
    pub code: u32,
    pub number: u32,
    pub running: u32,
}

/// What refuses a call, each with its own code.
#[derive(Clone, Copy, PartialEq, Eq)]
pub enum Refusal {
    NoProcess,
    NoClass,
    NoMailbox,
    NoSemaphore,
    NoCaller,
    LongMessage,
    HandFull,
    HandEmpty,
    /// With the length that is needed.
    ShortRoom(u32),
    AllProcesses,
    MailboxFull,
    NoBuffer,
    CountFull,
    NotSound,
    OtherStore,
    NoSlice,
    NoSize,
    MailboxBusy,
}

/// What the kernel reads off its state before it judges any call: whether it is sound, who runs, and how many ticks a full slice has. What
/// only some calls ask for they are given beside it. Soundness is a flag, and the struct no Option: the first refusal of each call is that it
/// is false, and the calls read the runner and the slice before their verdict.
#[derive(Clone, Copy)]
pub struct Facts {
    pub sound: bool,
    pub runner: Pid,
    pub slice: u8,
}

impl Refusal {
    /// The code of the answer.
    pub fn code(self) -> u32
        ensures { result ≡ code_of self }
    {
        match self {
            Refusal::NoProcess => 1,
            Refusal::NoClass => 2,
            Refusal::NoMailbox => 3,
            Refusal::NoSemaphore => 4,
            Refusal::NoCaller => 5,
            Refusal::LongMessage => 6,
            Refusal::HandFull => 7,
            Refusal::HandEmpty => 8,
            Refusal::ShortRoom(_) => 9,
            Refusal::AllProcesses => 10,
            Refusal::MailboxFull => 11,
            Refusal::NoBuffer => 12,
            Refusal::CountFull => 13,
            Refusal::NotSound => 14,
            Refusal::OtherStore => 15,
            Refusal::NoSlice => 16,
            Refusal::NoSize => 17,
            Refusal::MailboxBusy => 18,
        }
    }

    /// The number of the answer.
    pub fn number(self) -> u32
        ensures { result ≡ number_of self }
    {
        match self {
            Refusal::ShortRoom(needed) => needed,
            _ => 0,
        }
    }
}

// Where two tests make a verdict they are joined by `and`, in one line: each wrong answer that is tried takes the place of a line that
// stands here once. Three or more follow one another by `?`.
fn refuse_if(holds: bool, refusal: Refusal) -> Result<(), Refusal>
    ensures { told result ≡ found (record { code = code_of refusal; number = number_of refusal; holds = holds } ∷ []) }
{
    if holds { Err(refusal) } else { Ok(()) }
}

/// A fresh start with a slice named. It looks at no state.
pub fn on_fresh_start(slice: u32) -> Result<(), Refusal>
    ensures { told result ≡ found (start_refusals slice) }
{
    refuse_if(slice == 0 || LONGEST_SLICE < slice, Refusal::NoSlice)
}

/// A state that is not sound comes before every other refusal.
pub fn on_tick(f: Facts) -> Result<(), Refusal>
    ensures { told result ≡ found (on 14 (not f.sound) ∷ []) }
{
    refuse_if(!f.sound, Refusal::NotSound)
}

// What every other call asks first is all that is asked of a tick.
fn sound(f: Facts) -> Result<(), Refusal>
    ensures { told result ≡ found (on 14 (not f.sound) ∷ []) }
{
    on_tick(f)
}

/// Calls that are refused only while 0 runs.
pub fn on_idle(f: Facts) -> Result<(), Refusal>
    ensures { told result ≡ found (on 14 (not f.sound) ∷ on 5 (eqb f.runner.0 0) ∷ []) }
{
    sound(f).and(refuse_if(f.runner == Pid(0), Refusal::NoCaller))
}

pub fn on_create(f: Facts, class: u32, unused: u32) -> Result<(), Refusal>
    ensures { told result ≡ found (on 14 (not f.sound) ∷ no_class class ∷ on 10 (eqb unused processes) ∷ []) }
{
    sound(f)?;
    refuse_if(CLASSES <= class, Refusal::NoClass)?;
    refuse_if(unused == PROCESSES, Refusal::AllProcesses)
}

/// Process p by a name: whether it is the name of that number, and whether the number is unused.
pub fn on_stop(f: Facts, p: u32, named: bool, unused: bool) -> Result<(), Refusal>
    ensures { told result ≡ found (on 14 (not f.sound) ∷ on 1 (eqb p 0 || (not named || unused)) ∷ []) }
{
    sound(f).and(refuse_if(p == 0 || !named || unused, Refusal::NoProcess))
}

pub fn on_class(f: Facts, class: u32) -> Result<(), Refusal>
    ensures { told result ≡ found (on 14 (not f.sound) ∷ on 5 (eqb f.runner.0 0) ∷ no_class class ∷ []) }
{
    on_idle(f).and(refuse_if(CLASSES <= class, Refusal::NoClass))
}

// Whether a mailbox may not be set so: 1 to 32 messages, and a mode of 0 or 1. On the numbers as the caller gives them: habits asks the same
// of the bytes of a table, several at once.
fn no_size(capacity: u32, mode: u32) -> bool
    ensures { result ≡ no_size capacity mode }
{
    capacity == 0 || MOST_QUEUED < capacity || DROPPING < mode
}

/// Mailbox m may be set only while it is not busy with messages or waiters.
pub fn on_mailbox(f: Facts, m: u32, capacity: u32, mode: u32, busy: bool) -> Result<(), Refusal>
    ensures { told result ≡ found (on 14 (not f.sound) ∷ no_mailbox m ∷ on 17 (no_size capacity mode) ∷ on 18 busy ∷ []) }
{
    sound(f)?;
    refuse_if(MAILBOXES <= m, Refusal::NoMailbox)?;
    refuse_if(no_size(capacity, mode), Refusal::NoSize)?;
    refuse_if(busy, Refusal::MailboxBusy)
}

/// The mailbox refuses where it is full and does not drop; too few buffers are free for the message once what it drops has left its own.
pub fn on_send(
    f: Facts,
    held: usize,
    m: u32,
    n: usize,
    refuses: bool,
    few: bool,
) -> Result<(), Refusal>
    ensures { told result ≡ found (on 14 (not f.sound) ∷ on 15 (not (eqb held store_size)) ∷ no_mailbox m ∷ on 6 (ltb longest n) ∷ on 11 refuses ∷ on 12 few ∷ []) }
{
    sound(f)?;
    refuse_if(held != sizes::STORE_SIZE, Refusal::OtherStore)?;
    refuse_if(MAILBOXES <= m, Refusal::NoMailbox)?;
    refuse_if(sizes::LONGEST < n, Refusal::LongMessage)?;
    refuse_if(refuses, Refusal::MailboxFull)?;
    refuse_if(few, Refusal::NoBuffer)
}

pub fn on_receive(f: Facts, m: u32, hand: bool) -> Result<(), Refusal>
    ensures { told result ≡ found (on 14 (not f.sound) ∷ on 5 (eqb f.runner.0 0) ∷ no_mailbox m ∷ on 7 hand ∷ []) }
{
    on_idle(f)?;
    refuse_if(MAILBOXES <= m, Refusal::NoMailbox)?;
    refuse_if(hand, Refusal::HandFull)
}

pub fn on_release(f: Facts, hand: bool) -> Result<(), Refusal>
    ensures { told result ≡ found (on 14 (not f.sound) ∷ on 5 (eqb f.runner.0 0) ∷ on 8 (not hand) ∷ []) }
{
    on_idle(f).and(refuse_if(!hand, Refusal::HandEmpty))
}

/// A flag for the hand with the length beside it, and no Option: the promise names both, and 0 is the length of an empty message too.
pub fn on_read(f: Facts, held: usize, room: usize, hand: bool, length: u32) -> Result<(), Refusal>
    ensures { told result ≡ found (on 14 (not f.sound) ∷ on 15 (not (eqb held store_size)) ∷ on 5 (eqb f.runner.0 0) ∷ on 8 (not hand) ∷ record { code = 9; number = length; holds = ltb room length } ∷ []) }
{
    sound(f)?;
    refuse_if(held != sizes::STORE_SIZE, Refusal::OtherStore)?;
    refuse_if(f.runner == Pid(0), Refusal::NoCaller)?;
    refuse_if(!hand, Refusal::HandEmpty)?;
    refuse_if(room < length as usize, Refusal::ShortRoom(length))
}

pub fn on_signal(f: Facts, i: u32, count: u32) -> Result<(), Refusal>
    ensures { told result ≡ found (on 14 (not f.sound) ∷ no_semaphore i ∷ on 13 (eqb count highest_count) ∷ []) }
{
    sound(f)?;
    refuse_if(SEMAPHORES <= i, Refusal::NoSemaphore)?;
    refuse_if(count == HIGHEST_COUNT, Refusal::CountFull)
}

pub fn on_wait(f: Facts, i: u32) -> Result<(), Refusal>
    ensures { told result ≡ found (on 14 (not f.sound) ∷ on 5 (eqb f.runner.0 0) ∷ no_semaphore i ∷ []) }
{
    on_idle(f).and(refuse_if(SEMAPHORES <= i, Refusal::NoSemaphore))
}

/// A table of rows must have one for each process. Who runs and how long a slice is are not asked.
pub fn on_listing(sound: bool, rows: usize) -> Result<(), Refusal>
    ensures { told result ≡ found (on 14 (not sound) ∷ few_rows rows ∷ []) }
{
    refuse_if(!sound, Refusal::NotSound).and(refuse_if(
        rows < sizes::PROCESSES,
        Refusal::ShortRoom(PROCESSES),
    ))
}

/// Why a process waits may be asked by the name of each number, also of 0 and of one that is unused.
pub fn on_why(f: Facts, named: bool) -> Result<(), Refusal>
    ensures { told result ≡ found (on 14 (not f.sound) ∷ on 1 (not named) ∷ []) }
{
    sound(f).and(refuse_if(!named, Refusal::NoProcess))
}
