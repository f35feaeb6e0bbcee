// The kernel: its state by value, the decision whether a state is sound, and every call as a method that hands back the next state beside the answer.
// Every method answers for all numbers. So where a number goes into fewer bits it is cut, as in `(class % 256) as u8`: no cast may be left
// unproved, and what `try_from` gives would have to be unwrapped. The verdict before it has bounded the number, so that it stays as it is.
#![tactic(auto)]

ghost use Rattle.std.specs.Prelude.{◌≡◌, Err};
ghost use Rattle.plain.specs.State.{start};
ghost use Rattle.verdicts.specs.Chain.{verdict};
ghost use Rattle.verdicts.specs.Told.{told};
ghost use Rattle.kernel.specs.Holds.{named, Holds};
ghost use Rattle.kernel.specs.Facts.{Gathered};
ghost use Rattle.kernel.specs.Judged.{answered, refused_with};
ghost use Rattle.kernel.specs.Promise.{Starts};

use mail::Mail;
use procs::Procs;
pub use verdicts::Answer;
use verdicts::{DONE, Facts, Refusal};

mod letters;
mod mailboxes;
mod processes;
mod semaphores;
mod setup;
mod sound;

// From this number on a Pid is nobody. Whether anyone waits is asked by it of the first of a queue, and not of the queue by is_empty: with
// that, a signal cost some 100 instructions more.
const PROCESSES: u8 = sizes::PROCESSES as u8;

/// What is set: the ticks of a full slice, at the fresh start; how many messages each mailbox takes, and its mode, by a call too. These two
/// are tables by the mailbox's number, as in the image, and no array of structs.
#[derive(Clone, Copy)]
pub struct Settings {
    pub slice: u8,
    pub capacity: [u8; sizes::MAILBOXES],
    pub mode: [u8; sizes::MAILBOXES],
}

/// A whole state. What it has of a semaphore or a process, in procs too, stands in tables by number, as in the image, and in no array of
/// structs.
#[derive(Clone, Copy)]
pub struct Kernel {
    pub procs: Procs,
    pub mail: Mail,
    pub count: [u16; sizes::SEMAPHORES],
    pub births: [u8; sizes::PROCESSES],
    pub settings: Settings,
}

/// What a call hands back: the next state beside the answer.
#[derive(Clone, Copy)]
pub struct Done {
    pub state: Kernel,
    pub answer: Answer,
}

impl Kernel {
    /// Process 0 runs, every other number is unused, and nothing lies or is counted anywhere.
    pub fn fresh(settings: Settings) -> Kernel
        ensures { Holds result (start (named settings)) }
    {
        Kernel {
            procs: Procs::fresh(),
            mail: Mail::fresh(),
            count: [0; sizes::SEMAPHORES],
            births: [0; sizes::PROCESSES],
            settings,
        }
    }

    /// A fresh start with a slice named. Where that is refused the usual one holds.
    pub fn fresh_start(slice: u32) -> Done
        ensures { Starts slice result }
    {
        if let Err(r) = verdicts::on_fresh_start(slice) {
            return Kernel::fresh(Settings::usual()).refuse(r);
        }
        Kernel::fresh(Settings::of_slice((slice % 256) as u8)).answer(DONE, 0)
    }

    // The state with a code, a number and the process that runs.
    fn answer(self, code: u32, number: u32) -> Done
        ensures { result ≡ answered self code number }
    {
        Done {
            state: self,
            answer: Answer {
                code,
                number,
                running: self.procs.running.0 as u32,
            },
        }
    }

    // The state with the code and the number of a verdict, 0 and 0 where nothing refuses, and the process that runs; code 14 comes with running 0.
    fn refused(self, code: u32, number: u32) -> Done
        ensures { result ≡ refused_with self (verdict code number) }
    {
        let mut running = self.procs.running.0 as u32;
        if code == Refusal::NotSound.code() {
            running = 0;
        }
        let answer = Answer {
            code,
            number,
            running,
        };
        Done {
            state: self,
            answer,
        }
    }

    // The state with what refused the call. No call hands a refusal on by `?`: its answer has the state beside it in any case, so Done is no Result.
    fn refuse(self, r: Refusal) -> Done
        ensures { result ≡ refused_with self (told (Err r)) }
    {
        self.refused(r.code(), r.number())
    }

    /// A code and a number with the process that runs, of a question: the state stays in any case.
    pub fn answer_to(self, code: u32, number: u32) -> Answer
        ensures { result ≡ (refused_with self (verdict code number)).answer }
    {
        self.refused(code, number).answer
    }

    /// The answer to a question on which this was found.
    pub fn answer_found(self, v: Result<(), Refusal>) -> Answer
        ensures { result ≡ (refused_with self (told v)).answer }
    {
        match v {
            Ok(()) => self.answer(DONE, 0).answer,
            Err(r) => self.refuse(r).answer,
        }
    }

    // The state with one part anew, and three more for its other parts: each is one line at a call, where the literal takes four.
    fn with_procs(self, next: Procs) -> Kernel
        ensures { result ≡ record { procs = next; mail = self.mail; count = self.count; births = self.births; settings = self.settings } }
    {
        Kernel {
            procs: next,
            ..self
        }
    }

    fn with_mail(self, next: Mail) -> Kernel
        ensures { result ≡ record { procs = self.procs; mail = next; count = self.count; births = self.births; settings = self.settings } }
    {
        Kernel { mail: next, ..self }
    }

    fn with_count(self, next: [u16; sizes::SEMAPHORES]) -> Kernel
        ensures { result ≡ record { procs = self.procs; mail = self.mail; count = next; births = self.births; settings = self.settings } }
    {
        Kernel {
            count: next,
            ..self
        }
    }

    fn with_settings(self, next: Settings) -> Kernel
        ensures { result ≡ record { procs = self.procs; mail = self.mail; count = self.count; births = self.births; settings = next } }
    {
        Kernel {
            settings: next,
            ..self
        }
    }

    /// What is read off the state before any call is judged. Not inlined: its frame would be added to that of each call, and a call's stack is bounded.
    #[inline(never)]
    pub fn facts(self) -> Facts
        ensures { Gathered self result }
    {
        Facts {
            sound: self.is_sound(),
            runner: self.procs.running,
            slice: self.settings.slice,
        }
    }
}
