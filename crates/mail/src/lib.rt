// What is held: the mailboxes' queues of messages, each process's hand, the length of each message, which buffers are free, and how those of a message are linked.
// A message is known by the first of its buffers: that one is queued or in a hand, and has its length.
// Every function answers for every number: past the last process there is no hand, past the last mailbox no queue, past the last buffer no message.
// So 32 can stand for no buffer, and no Option does: every step takes it as it is, and changes nothing.
// An array that is asked or changed at an index is copied out first: lent from within, it would have the whole struct copied, some 30 instructions a call and more.
#![tactic(auto, unfolding(boxes::specs::Box::tables_of, crate::specs::Carries::numbers, crate::specs::Moves::lowest_free, crate::specs::Moves::lacks, crate::specs::Moves::is_full_box, crate::specs::Moves::is_empty_box, crate::specs::Moves::has_message, crate::specs::Moves::hand_at, crate::specs::Moves::length_in_hand, crate::specs::Moves::first_length, crate::specs::Moves::filled, crate::specs::Moves::freed, crate::specs::Moves::given, crate::specs::Moves::emptied, crate::specs::Moves::set_in_hand, crate::specs::Moves::queued_last, crate::specs::Moves::handed_over, crate::specs::Moves::delivered, crate::specs::Moves::oldest_dropped, crate::specs::Moves::relieved, crate::specs::Moves::fetched, crate::specs::Moves::let_go))]

ghost use Rattle.std.specs.Prelude.{◌≡◌};
ghost use Rattle.mail.specs.Carries.{numbers};
ghost use Rattle.mail.specs.Moves.{lowest_free, lacks, is_full_box, is_empty_box, has_message, hand_at, length_at, length_in_hand, first_length, fresh_mail, filled, freed, set_in_hand, queued_last, handed_over, delivered, oldest_dropped, relieved, fetched, let_go};

use boxes::Boxes;
use sizes::{Bid, Bids, Pid, Pids};
use tables::{entry, set_entry};

const PROCESSES: u8 = sizes::PROCESSES as u8;

// A bit for each buffer.
const ALL: u32 = u32::MAX;

/// As the image has it: each hand, and apart from it a bit that says whether it is full, where an Option would have both.
#[derive(Clone, Copy)]
pub struct Mail {
    pub boxes: Boxes,
    pub hand: [Bid; sizes::PROCESSES],
    pub full: Pids,
    pub length: [u16; sizes::BUFFERS],
    pub free: Bids,
    pub chain: [Bid; sizes::BUFFERS],
}

impl Mail {
    /// Nothing is queued, nothing is in a hand, every buffer is free.
    #[tactic(auto, unfolding(boxes::specs::Box::tables_of, crate::specs::Carries::numbers, crate::specs::Moves::fresh_mail, bits::specs::Word::word))]
    pub fn fresh() -> Mail
        ensures { numbers result ≡ fresh_mail }
    {
        Mail {
            boxes: Boxes::fresh(),
            hand: [Bid(0); sizes::PROCESSES],
            full: Pids(0),
            length: [0; sizes::BUFFERS],
            free: Bids(ALL),
            chain: chains::fresh(),
        }
    }

    /// The lowest free buffer, in which the next message begins, or 32 where none is free.
    pub fn lowest_free(self) -> Bid
        ensures { result.0 ≡ lowest_free (numbers self) }
    {
        chains::lowest_of(self.free.0)
    }

    /// Whether fewer buffers are free than n bytes need.
    pub fn lacks(self, n: usize) -> bool
        ensures { result ≡ lacks (numbers self) n }
    {
        !chains::enough(self.free, chains::buffers_for(n))
    }

    /// Whether mailbox m, which takes n messages, is full.
    pub fn is_full_box(self, m: u32, n: u32) -> bool
        ensures { result ≡ is_full_box (numbers self) m n }
    {
        self.boxes.holds_at_least(m, n)
    }

    pub fn is_empty_box(self, m: u32) -> bool
        ensures { result ≡ is_empty_box (numbers self) m }
    {
        self.boxes.is_empty(m)
    }

    /// Whether the hand of p is full.
    pub fn has_message(self, p: Pid) -> bool
        ensures { result ≡ has_message (numbers self) p.0 }
    {
        bits::has_bit(self.full.0, p.0 as u32)
    }

    /// What the table of hands has for p; whether a message in hand begins there, `has_message` says.
    pub fn in_hand(self, p: Pid) -> Bid
        ensures { result.0 ≡ hand_at (numbers self) p.0 }
    {
        let hand = self.hand;
        entry(&hand, p.0 as usize, Bid(0))
    }

    // The length of the message that begins in b, or 0 past the last buffer.
    fn length_of(self, b: Bid) -> u16
        ensures { result ≡ length_at (numbers self) b.0 }
    {
        let length = self.length;
        entry(&length, b.0 as usize, 0)
    }

    /// The length of the message in the hand of p, or 0 where the hand is empty: no Option, since the verdict on a read is given the hand beside it.
    pub fn length_in_hand(self, p: Pid) -> u16
        ensures { result ≡ length_in_hand (numbers self) p.0 }
    {
        if self.has_message(p) {
            self.length_of(self.in_hand(p))
        } else {
            0
        }
    }

    /// The length of the first message of mailbox m, or 0 where it is empty: whether it is, a receive asks first.
    pub fn first_length(self, m: u32) -> u16
        ensures { result ≡ first_length (numbers self) m }
    {
        self.length_of(self.boxes.first(m))
    }

    // As many of the lowest free buffers as n bytes need take a message of n bytes.
    fn fill(self, n: u16) -> Mail
        ensures { numbers result ≡ filled (numbers self) n }
    {
        let b = self.lowest_free();
        let mut length = self.length;
        set_entry(&mut length, b.0 as usize, n);
        let mut chain = self.chain;
        let mut free = self.free;
        chains::take(&mut chain, &mut free, chains::buffers_for(n as usize));
        Mail {
            length,
            chain,
            free,
            ..self
        }
    }

    // The buffers of the message that begins in b become free.
    fn set_free(self, b: Bid) -> Mail
        ensures { numbers result ≡ freed (numbers self) b.0 }
    {
        let held = chains::buffers_for(self.length_of(b) as usize);
        let mut length = self.length;
        set_entry(&mut length, b.0 as usize, 0);
        let mut chain = self.chain;
        let mut free = self.free;
        chains::give_back(&mut chain, b, held, &mut free);
        Mail {
            length,
            chain,
            free,
            ..self
        }
    }

    // The hand of p has the message that begins in b, or is empty, and then its entry is 0.
    fn set_hand(self, p: Pid, b: Option<Bid>) -> Mail
        ensures { numbers result ≡ set_in_hand (numbers self) p.0 b }
    {
        let mut hand = self.hand;
        set_entry(&mut hand, p.0 as usize, b.unwrap_or(Bid(0)));
        let bits = bits::put_bit(self.full.0, p.0 as u32, b.is_some());
        Mail {
            hand,
            full: Pids(bits),
            ..self
        }
    }

    // A message of n bytes takes its buffers and is queued last in mailbox m.
    fn queue_last(self, m: u32, n: u16) -> Mail
        ensures { numbers result ≡ queued_last (numbers self) m n }
    {
        let boxes = self.boxes.join_rear(m, self.lowest_free());
        Mail {
            boxes,
            ..self.fill(n)
        }
    }

    // A message of n bytes takes its buffers and goes into the hand of p.
    fn hand_over(self, p: Pid, n: u16) -> Mail
        ensures { numbers result ≡ handed_over (numbers self) p.0 n }
    {
        self.fill(n).set_hand(p, Some(self.lowest_free()))
    }

    /// A message of n bytes takes its buffers for mailbox m: w, the first who waits there, gets it in hand; where w is no process, it is queued last.
    /// Not inlined, since its frame would be added to that of the call, and docs/BOARD.md bounds a call's stack.
    #[inline(never)]
    pub fn deliver(self, m: u32, w: Pid, n: u16) -> Mail
        ensures { numbers result ≡ delivered (numbers self) m w.0 n }
    {
        if w.0 < PROCESSES {
            self.hand_over(w, n)
        } else {
            self.queue_last(m, n)
        }
    }

    // The first message of mailbox m leaves it, and its buffers become free: it is lost.
    fn drop_oldest(self, m: u32) -> Mail
        ensures { numbers result ≡ oldest_dropped (numbers self) m }
    {
        let lost = self.boxes.first(m);
        let boxes = self.boxes.leave(lost);
        Mail {
            boxes,
            ..self.set_free(lost)
        }
    }

    /// What a send to mailbox m finds: where `drops` holds, its oldest message is dropped first.
    /// Not inlined, for the reason that `deliver` has.
    #[inline(never)]
    pub fn relieve(self, m: u32, drops: bool) -> Mail
        ensures { numbers result ≡ relieved (numbers self) m drops }
    {
        if drops { self.drop_oldest(m) } else { self }
    }

    /// The first message of mailbox m goes into the hand of p.
    pub fn fetch(self, m: u32, p: Pid) -> Mail
        ensures { numbers result ≡ fetched (numbers self) m p.0 }
    {
        let first = self.boxes.first(m);
        let boxes = self.boxes.leave(first);
        Mail {
            boxes,
            ..self.set_hand(p, Some(first))
        }
    }

    /// The buffers of the message in the hand of p become free; nothing changes where the hand is empty.
    pub fn let_go(self, p: Pid) -> Mail
        ensures { numbers result ≡ let_go (numbers self) p.0 }
    {
        if !self.has_message(p) {
            return self;
        }
        self.set_free(self.in_hand(p)).set_hand(p, None)
    }
}
