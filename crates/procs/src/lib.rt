// Who runs: the process queues, each process's class and ticks left, a bit for each class that has someone ready, and a bit for each number
// that is unused.
// Every function answers for every struct and every number: a number that names no process has no entry and joins no queue.
// So such a number can stand for nobody, and no Option does: every move takes it as it is.
// An array that is asked or changed at an index is copied out first: lent from within, it would have the whole struct copied, some 30 instructions a call and more.
#![tactic(auto, unfolding(queues::specs::Queue::tables_of, crate::specs::Stands::numbers, crate::specs::Moves::runs, crate::specs::Moves::ranked, crate::specs::Moves::timed, crate::specs::Moves::marked, crate::specs::Moves::noted, crate::specs::Moves::requeued, crate::specs::Moves::joined, crate::specs::Moves::fronted, crate::specs::Moves::gone, crate::specs::Moves::first_runs, crate::specs::Moves::chosen, crate::specs::Moves::stood_down, crate::specs::Moves::is_above, crate::specs::Moves::preempted, crate::specs::Moves::readied, crate::specs::Moves::created, crate::specs::Moves::woken, crate::specs::Moves::went_to, crate::specs::Moves::yielded, crate::specs::Moves::regraded, crate::specs::Moves::ticked, crate::specs::Moves::removed, crate::specs::Moves::halted))]

ghost use Rattle.std.specs.Prelude.{◌≡◌};
ghost use Rattle.queues.specs.Queue.{tables_of};
ghost use Rattle.procs.specs.Stands.{numbers};
ghost use Rattle.procs.specs.Moves.{class_at, ticks_at, unused_at, lowest_unused, first_of, fresh, runs, ranked, timed, marked, requeued, joined, fronted, gone, first_runs, chosen, stood_down, is_above, preempted, readied, created, woken, went_to, yielded, regraded, ticked, removed, halted};

use queues::Queues;
use sizes::{Pid, Pids};
use tables::{entry, set_entry};

const PROCESSES: u8 = sizes::PROCESSES as u8;

const CLASSES: u32 = sizes::CLASSES as u32;

// A bit for each process but 0.
const ALL_BUT_0: u32 = u32::MAX - 1;

/// Class and ticks as the image has them, a table of each with an entry for each process: so no array of structs.
#[derive(Clone, Copy)]
pub struct Procs {
    pub running: Pid,
    pub class: [u8; sizes::PROCESSES],
    pub ticks: [u8; sizes::PROCESSES],
    pub queues: Queues,
    pub ready: u32,
    pub unused: Pids,
}

impl Procs {
    /// 0 runs, and the others are unused.
    #[tactic(auto, unfolding(queues::specs::Queue::tables_of, crate::specs::Stands::numbers, crate::specs::Moves::fresh, bits::specs::Word::word))]
    pub fn fresh() -> Procs
        ensures { numbers result ≡ fresh }
    {
        Procs {
            running: Pid(0),
            class: [0; sizes::PROCESSES],
            ticks: [0; sizes::PROCESSES],
            queues: Queues::fresh(),
            ready: 0,
            unused: Pids(ALL_BUT_0),
        }
    }

    /// Whether p is a number that the next process may get.
    pub fn is_unused(self, p: u32) -> bool
        ensures { result ≡ unused_at (numbers self) p }
    {
        bits::has_bit(self.unused.0, p)
    }

    /// The number that the next process gets, or 32 where none is unused.
    pub fn lowest_unused(self) -> u32
        ensures { result ≡ lowest_unused (numbers self) }
    {
        bits::lowest_bit(self.unused.0)
    }

    /// The first of queue q; where it is empty, a number that is no process.
    pub fn first(self, q: u32) -> Pid
        ensures { result.0 ≡ first_of (numbers self) q }
    {
        self.queues.first(q)
    }

    /// The class of p, or 0 where p is no process: as every move, it takes any number.
    pub fn class_of(self, p: Pid) -> u8
        ensures { result ≡ class_at (numbers self) p.0 }
    {
        let class = self.class;
        entry(&class, p.0 as usize, 0)
    }

    // The ticks that p has left, or 0 where p is no process.
    fn ticks_of(self, p: Pid) -> u8
        ensures { result ≡ ticks_at (numbers self) p.0 }
    {
        let ticks = self.ticks;
        entry(&ticks, p.0 as usize, 0)
    }

    fn run(self, p: Pid) -> Procs
        ensures { numbers result ≡ runs p.0 (numbers self) }
    {
        Procs { running: p, ..self }
    }

    pub fn set_class(self, p: Pid, c: u8) -> Procs
        ensures { numbers result ≡ ranked p.0 c (numbers self) }
    {
        let mut class = self.class;
        set_entry(&mut class, p.0 as usize, c);
        Procs { class, ..self }
    }

    fn set_ticks(self, p: Pid, n: u8) -> Procs
        ensures { numbers result ≡ timed p.0 n (numbers self) }
    {
        let mut ticks = self.ticks;
        set_entry(&mut ticks, p.0 as usize, n);
        Procs { ticks, ..self }
    }

    // p's number is unused, or no longer.
    fn mark(self, p: Pid, unused: bool) -> Procs
        ensures { numbers result ≡ marked p.0 unused (numbers self) }
    {
        let bits = bits::put_bit(self.unused.0, p.0 as u32, unused);
        Procs {
            unused: Pids(bits),
            ..self
        }
    }

    // The queues become t, in which queue q has changed. If q is a class, its bit says whether anyone is ready there.
    fn requeue(mut self, q: u32, t: Queues) -> Procs
        ensures { numbers result ≡ requeued q (tables_of t) (numbers self) }
    {
        self.queues = t;
        if q < CLASSES {
            self.ready = bits::put_bit(self.ready, q, !t.is_empty(q));
        }
        self
    }

    fn join_rear(self, q: u32, p: Pid) -> Procs
        ensures { numbers result ≡ joined q p.0 (numbers self) }
    {
        self.requeue(q, self.queues.join_rear(q, p))
    }

    fn join_front(self, q: u32, p: Pid) -> Procs
        ensures { numbers result ≡ fronted q p.0 (numbers self) }
    {
        self.requeue(q, self.queues.join_front(q, p))
    }

    // p leaves queue q.
    fn leave(self, q: u32, p: Pid) -> Procs
        ensures { numbers result ≡ gone q p.0 (numbers self) }
    {
        self.requeue(q, self.queues.leave(p))
    }

    // The first of queue q leaves it and runs.
    fn run_first(self, q: u32) -> Procs
        ensures { numbers result ≡ first_runs q (numbers self) }
    {
        let p = self.first(q);
        self.leave(q, p).run(p)
    }

    /// The first of the highest class with anyone ready runs, else 0.
    pub fn choose(self) -> Procs
        ensures { numbers result ≡ chosen (numbers self) }
    {
        let c = bits::highest_bit(self.ready);
        if c < CLASSES {
            return self.run_first(c);
        }
        self.run(Pid(0))
    }

    // A running process other than 0 goes to the front of its class with its ticks left.
    fn stand_down(self) -> Procs
        ensures { numbers result ≡ stood_down (numbers self) }
    {
        let p = self.running;
        if p == Pid(0) {
            return self;
        }
        self.join_front(self.class_of(p) as u32, p).run(Pid(0))
    }

    // Whether p's class is above the running one's, or 0 runs.
    fn is_above(self, p: Pid) -> bool
        ensures { result ≡ is_above p.0 (numbers self) }
    {
        let r = self.running;
        r == Pid(0) || self.class_of(r) < self.class_of(p)
    }

    // p runs, and who ran stands down.
    fn preempt(self, p: Pid) -> Procs
        ensures { numbers result ≡ preempted p.0 (numbers self) }
    {
        self.stand_down().run(p)
    }

    /// p, who stands nowhere, gets a full slice. It runs if its class is above the running one's or 0 runs, else it joins the rear of its class.
    pub fn make_ready(self, p: Pid, slice: u8) -> Procs
        ensures { numbers result ≡ readied slice p.0 (numbers self) }
    {
        let full = self.set_ticks(p, slice);
        if self.is_above(p) {
            return full.preempt(p);
        }
        full.join_rear(self.class_of(p) as u32, p)
    }

    /// p, who is unused, becomes a process of a class and is made ready.
    pub fn create(self, p: Pid, class: u8, slice: u8) -> Procs
        ensures { numbers result ≡ created slice p.0 class (numbers self) }
    {
        self.set_class(p, class).make_ready(p, slice).mark(p, false)
    }

    // The same as `leave`, by itself: taken in, it adds its frame to that of a signal, for which docs/BOARD.md has a bound.
    #[inline(never)]
    fn taken_out(self, q: u32, p: Pid) -> Procs
        ensures { numbers result ≡ gone q p.0 (numbers self) }
    {
        self.leave(q, p)
    }

    /// The first of queue q leaves it and is made ready; where nobody stands there, nothing changes.
    pub fn wake(self, q: u32, slice: u8) -> Procs
        ensures { numbers result ≡ woken slice q (numbers self) }
    {
        let w = self.first(q);
        if w.0 >= PROCESSES {
            return self;
        }
        self.taken_out(q, w).make_ready(w, slice)
    }

    /// The running process joins the rear of queue q with a full slice, and one is chosen.
    pub fn go_to(self, q: u32, slice: u8) -> Procs
        ensures { numbers result ≡ went_to slice q (numbers self) }
    {
        let p = self.running;
        self.set_ticks(p, slice).join_rear(q, p).choose()
    }

    /// The running process joins the rear of its class with a full slice, and one is chosen.
    pub fn yield_now(self, slice: u8) -> Procs
        ensures { numbers result ≡ yielded slice (numbers self) }
    {
        self.go_to(self.class_of(self.running) as u32, slice)
    }

    /// The running process changes to class c: if it is of another, it joins the rear there with a full slice, and one is chosen.
    pub fn change_class(self, c: u8, slice: u8) -> Procs
        ensures { numbers result ≡ regraded slice c (numbers self) }
    {
        let p = self.running;
        if c == self.class_of(p) {
            return self;
        }
        self.set_class(p, c).go_to(c as u32, slice)
    }

    /// The running process, if it is not 0, has one tick less; with none left it yields.
    pub fn tick(self, slice: u8) -> Procs
        ensures { numbers result ≡ ticked slice (numbers self) }
    {
        let p = self.running;
        if p == Pid(0) {
            return self;
        }
        let n = self.ticks_of(p);
        if n > 1 {
            return self.set_ticks(p, n - 1);
        }
        self.yield_now(slice)
    }

    // p leaves its queue, its block carries zeros, and its number is unused.
    fn remove(self, p: Pid) -> Procs
        ensures { numbers result ≡ removed p.0 (numbers self) }
    {
        self.mark(p, true)
            .leave(self.class_of(p) as u32, p)
            .set_class(p, 0)
            .set_ticks(p, 0)
    }

    /// p leaves its place and becomes unused; one is chosen if it ran.
    pub fn halt(self, p: Pid) -> Procs
        ensures { numbers result ≡ halted p.0 (numbers self) }
    {
        let rest = self.remove(p);
        if self.running == p {
            rest.choose()
        } else {
            rest
        }
    }
}
