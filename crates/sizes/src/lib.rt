// The sizes of document 01 as the code has them, each named once, and process and buffer numbers, and words of bits for them, as separate units. The definitions have their own sizes in crates/plain/specs/Sizes.antt, and the proofs hold the two together. Assumes nothing.
#![tactic(auto)]

ghost use Rattle.std.specs.Prelude.{◌≡◌, ℕ};

/// A kind of things that are known by a number of one byte; such a number is one itself. No From and Into: the ghost member says of both ways
/// which number it is.
pub trait Unit: Copy {
    ghost num: { Self → ℕ };

    fn number(self) -> u8
        ensures { result ≡ num self };

    fn of(n: u8) -> Self
        ensures { num result ≡ n };
}

/// A process and a buffer: "a place for one never takes the other". Either may hold any byte.
#[derive(Clone, Copy, PartialEq, Eq)]
pub struct Pid(pub u8);

#[derive(Clone, Copy, PartialEq, Eq)]
pub struct Bid(pub u8);

impl Unit for u8 {
    ghost num = { λ n. n };

    fn number(self) -> u8 {
        self
    }

    fn of(byte: u8) -> u8 {
        byte
    }
}

impl Unit for Pid {
    ghost num = { λ p. p.0 };

    fn number(self) -> u8 {
        let Pid(n) = self;
        n
    }

    fn of(n: u8) -> Pid {
        Pid(n)
    }
}

impl Unit for Bid {
    ghost num = { λ b. b.0 };

    fn number(self) -> u8 {
        let Bid(n) = self;
        n
    }

    fn of(n: u8) -> Bid {
        Bid(n)
    }
}

/// A word with a bit for each process, bit p for process p.
#[derive(Clone, Copy, PartialEq, Eq)]
pub struct Pids(pub u32);

/// A word with a bit for each buffer, bit b for buffer b.
#[derive(Clone, Copy, PartialEq, Eq)]
pub struct Bids(pub u32);

pub const PROCESSES: usize = 32;

pub const CLASSES: usize = 5;

pub const MAILBOXES: usize = 16;

/// Messages that a mailbox takes at the fresh start, and the most that one may be set to take.
pub const USUAL_CAPACITY: usize = 8;

pub const MOST_QUEUED: usize = 32;

/// The modes of a mailbox: full, it refuses what is sent to it, or drops its oldest message for it.
/// Numbers, and no enum: the image has them as bytes, and a table of any bytes is answered for.
pub const REFUSING: u8 = 0;

pub const DROPPING: u8 = 1;

pub const BUFFERS: usize = 32;

pub const BUFFER_SIZE: usize = 512;

pub const STORE_SIZE: usize = BUFFERS * BUFFER_SIZE;

/// Bytes of a message at most: those of eight buffers.
pub const LONGEST: usize = 4096;

pub const SEMAPHORES: usize = 16;

pub const HIGHEST_COUNT: usize = 65535;

/// Ticks of a full slice at most, and where none are named.
pub const LONGEST_SLICE: usize = 255;

pub const USUAL_SLICE: usize = 5;

/// A name is the number plus so many times its birth count, and returns after so many births.
pub const BIRTHS: usize = 256;

/// The queues of processes: the ready ones of class c are queue c; then come the waiters at the mailboxes, then those at the semaphores.
pub const AT_MAILBOXES: usize = CLASSES;

pub const AT_SEMAPHORES: usize = CLASSES + MAILBOXES;

pub const QUEUES: usize = CLASSES + MAILBOXES + SEMAPHORES;
