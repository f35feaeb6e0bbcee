// Linked queues as two tables of links, proved once for processes and buffers. The tables may hold anything: where a link leads past the
// last node, nothing changes.
// Each move has one return at its end: a second one would cost several copies of the tables.
ghost use borrow.Author.Tests.{ltb-false};
ghost use Rattle.std.specs.Prelude.{◌≡◌, ◌+◌, ◌%◌, ◌≤◌, List, map, refl, ℕ};
ghost use Rattle.rings.specs.Moves.{own, MadeFresh, JoinedRear, JoinedFront, HasLeft, IsFirst, SaysEmpty, SaysAtLeast};
ghost use Rattle.rings.specs.Links.{tables_of};
ghost use Rattle.rings.specs.Walk.{tables};

use sizes::{Bid, Pid, Unit};

/// What stands in queues whose links are NODES nodes: a node for each member, then the head of each queue; a byte holds a node's number.
pub trait Member<const NODES: usize>: Unit {
    const MEMBERS: usize;

    const HEADS: usize;

    ghost MEMBERS: { ℕ };

    ghost HEADS: { ℕ };

    ghost nodes: { MEMBERS + HEADS ≡ NODES };

    ghost few: { NODES ≤ 255 };
}

pub const QUEUE_NODES: usize = sizes::PROCESSES + sizes::QUEUES;

pub const BOX_NODES: usize = sizes::BUFFERS + sizes::MAILBOXES;

impl Member<QUEUE_NODES> for Pid {
    const MEMBERS: usize = sizes::PROCESSES;

    const HEADS: usize = sizes::QUEUES;

    ghost MEMBERS = { 32 };

    ghost HEADS = { 37 };

    ghost nodes = { refl };

    ghost few = { ltb-false 255 69 refl };
}

impl Member<BOX_NODES> for Bid {
    const MEMBERS: usize = sizes::BUFFERS;

    const HEADS: usize = sizes::MAILBOXES;

    ghost MEMBERS = { 32 };

    ghost HEADS = { 16 };

    ghost nodes = { refl };

    ghost few = { ltb-false 255 48 refl };
}

/// The node after each node, and the node before it. A member in no queue is linked to itself.
#[derive(Clone, Copy)]
pub struct Links<T, const NODES: usize> {
    pub next: [T; NODES],
    pub prev: [T; NODES],
}

/// The links as bytes, to be lent.
pub fn bytes_of<T: Unit, const N: usize>(links: [T; N]) -> [u8; N]
    ensures { result ≡ map T.num links }
{
    let mut bytes = [0; N];
    for i in 0..N {
        bytes[i] = links[i].number();
    }
    bytes
}

/// Unit i at each place i. A byte holds its number, so from place 256 on the numbers begin at 0 again.
/// A `for`: `from_fn` asks that the array has fewer than 2^63 bytes, and of any T and any length nothing says so.
pub fn own<T: Unit, const UNITS: usize>() -> [T; UNITS]
    ensures { map T.num result ≡ map (λ i. i % 256) (own UNITS) }
{
    let mut units = [T::of(0); UNITS];
    for i in 0..UNITS {
        units[i] = T::of((i % 256) as u8);
    }
    units
}

impl<T: Member<NODES>, const NODES: usize> Links<T, NODES> {
    /// Every queue is empty.
    pub fn fresh() -> Self
        ensures { MadeFresh T.MEMBERS T.HEADS (tables_of T.num result) }
    {
        let alone = own();
        Links {
            next: alone,
            prev: alone,
        }
    }

    /// p, who stands in no queue, joins the rear of queue q.
    pub fn join_rear(mut self, q: u32, p: T) -> Self
        ensures { JoinedRear T.MEMBERS T.HEADS (tables_of T.num self) q (T.num p) (tables_of T.num result) }
    {
        let i = p.number() as usize;
        if (q as usize) < T::HEADS && i < T::MEMBERS {
            let h = T::MEMBERS + q as usize;
            let last = self.prev[h];
            let l = last.number() as usize;
            if l < NODES {
                self.next[l] = p;
                self.next[i] = T::of(h as u8);
                self.prev[i] = last;
                self.prev[h] = p;
            }
        }
        self
    }

    /// p, who stands in no queue, joins the front of queue q.
    pub fn join_front(mut self, q: u32, p: T) -> Self
        ensures { JoinedFront T.MEMBERS T.HEADS (tables_of T.num self) q (T.num p) (tables_of T.num result) }
    {
        let i = p.number() as usize;
        if (q as usize) < T::HEADS && i < T::MEMBERS {
            let h = T::MEMBERS + q as usize;
            let first = self.next[h];
            let f = first.number() as usize;
            if f < NODES {
                self.next[h] = p;
                self.next[i] = first;
                self.prev[i] = T::of(h as u8);
                self.prev[f] = p;
            }
        }
        self
    }

    /// p leaves the queue in which it stands, if it stands in one.
    pub fn leave(mut self, p: T) -> Self
        ensures { HasLeft T.MEMBERS T.HEADS (tables_of T.num self) (T.num p) (tables_of T.num result) }
    {
        let i = p.number() as usize;
        if i < T::MEMBERS {
            let ahead = self.prev[i];
            let behind = self.next[i];
            let a = ahead.number() as usize;
            let b = behind.number() as usize;
            if a < NODES && b < NODES {
                self.next[a] = behind;
                self.next[i] = p;
                self.prev[b] = ahead;
                self.prev[i] = p;
            }
        }
        self
    }

    /// The first of queue q; where it is empty, a number that is no member: no Option, since every move takes that as it is and changes nothing.
    pub fn first(self, q: u32) -> T
        ensures { IsFirst T.MEMBERS T.HEADS (tables_of T.num self) q (T.num result) }
    {
        Self::first_by(&self.next, q)
    }

    pub fn is_empty(self, q: u32) -> bool
        ensures { SaysEmpty T.MEMBERS T.HEADS (tables_of T.num self) q result }
    {
        T::MEMBERS <= self.first(q).number() as usize
    }

    // The first of queue q by the links on, which are units or bytes; where it is empty, a number that is no member.
    fn first_by<U: Unit>(next: &[U; NODES], q: u32) -> U
        ensures { (prev : List ℕ) → IsFirst T.MEMBERS T.HEADS (tables (map U.num next.now) prev) q (U.num result) }
    {
        if (q as usize) < T::HEADS {
            next[T::MEMBERS + q as usize]
        } else {
            U::of(T::MEMBERS as u8)
        }
    }

    /// Whether queue q has n members or more, by the links on: those back are not read.
    pub fn at_least(next: &[u8; NODES], q: u32, n: u32) -> bool
        ensures { (prev : List ℕ) → SaysAtLeast T.MEMBERS T.HEADS (tables next.now prev) q n result }
    {
        if T::MEMBERS < n as usize {
            return false;
        }
        let mut p = Self::first_by(next, q) as usize;
        for _ in 0..n {
            if T::MEMBERS <= p {
                return false;
            }
            p = next[p] as usize;
        }
        true
    }

    /// Whether queue q has n members or more.
    pub fn holds_at_least(self, q: u32, n: u32) -> bool
        ensures { SaysAtLeast T.MEMBERS T.HEADS (tables_of T.num self) q n result }
    {
        let next = bytes_of(self.next);
        Self::at_least(&next, q, n)
    }
}
