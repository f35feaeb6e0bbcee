// Why a process waits: the one reason that is true of it, by value, and its numbers for the world outside.
// Any struct is answered for: one that is not sound with 14.
#![tactic(auto)]

ghost use Rattle.std.specs.Prelude.{◌≡◌, suc, ◌≤◌, if◌then◌else◌};
ghost use Rattle.plain.specs.Sizes.{processes};
ghost use Rattle.plain.specs.Why as Plain;
ghost use Rattle.procs.specs.Stands as Stands;
ghost use Rattle.kernel.specs.Holds.{Holds};
ghost use Rattle.kernel.specs.Judged.{Judged};
ghost use Rattle.verdicts.specs.Told.{told};
ghost use Rattle.reasons.specs.Numbered.{runner, reason_by, reason_at, refusals};
ghost use Rattle.reasons.specs.Reasons.{meant, given, Explains};

use kernel::{Answer, Kernel};
use procs::Procs;
use rows::spots::{Spot, spot_of};
use rows::{AT_MAILBOX, AT_SEMAPHORE, READY};
use sizes::Pid;
use verdicts::Refusal;

#[derive(Clone, Copy)]
pub enum Reason {
    Unused,
    Running,
    /// Behind so many of its class, the one that runs among them.
    Ready(u8),
    /// At that mailbox or semaphore, with so many ahead.
    Mailbox(u8, u8),
    Semaphore(u8, u8),
    /// Ready while that process runs.
    Behind(u8),
}

/// A reason beside the answer; none where the question is refused.
#[derive(Clone, Copy)]
pub struct Explained {
    pub answer: Answer,
    pub reason: Option<Reason>,
}

/// Which kind of reason, which mailbox, semaphore or process, and how many are ahead.
/// The kind is a number, since C reads it.
#[derive(Clone, Copy, Default)]
pub struct Numbers {
    pub kind: u32,
    pub which: u32,
    pub ahead: u32,
}

fn numbered(kind: u32, which: u8, ahead: u8) -> Numbers
    ensures { result ≡ given (Plain.numbered kind which ahead) }
{
    Numbers {
        kind,
        which: which as u32,
        ahead: ahead as u32,
    }
}

impl From<Reason> for Numbers {
    ghost from_gives = { λ r n. n ≡ given (Plain.numbers (meant r)) };

    fn from(reason: Reason) -> Numbers
        ensures { result ≡ given (Plain.numbers (meant reason)) }
    {
        match reason {
            Reason::Unused => numbered(0, 0, 0),
            Reason::Running => numbered(1, 0, 0),
            Reason::Ready(n) => numbered(2, 0, n),
            Reason::Mailbox(x, n) => numbered(3, x, n),
            Reason::Semaphore(x, n) => numbered(4, x, n),
            Reason::Behind(q) => numbered(5, q, 0),
        }
    }
}

// Ready in class c with so many ahead in the queue, while a process of that class runs.
fn ready(running: Pid, class: u8, c: u8, ahead: u8) -> Reason
    requires { ahead ≤ processes }
    ensures { meant result ≡ (if Plain.is_runner_of (runner running.0 class) c then Plain.ready (suc ahead) else Plain.behind running.0) }
{
    if running == Pid(0) || class != c {
        return Reason::Behind(running.0);
    }
    Reason::Ready(ahead + 1)
}

// At that spot, while a process of that class runs.
#[tactic(auto, unfolding(crate::specs::Numbered::reason_by))]
fn reason_at(running: Pid, class: u8, s: Spot) -> Reason
    requires { s.position ≤ processes }
    ensures { meant result ≡ reason_by (runner running.0 class) s }
{
    match s.place {
        READY => ready(running, class, s.which, s.position),
        AT_MAILBOX => Reason::Mailbox(s.which, s.position),
        AT_SEMAPHORE => Reason::Semaphore(s.which, s.position),
        _ => Reason::Unused,
    }
}

fn reason_of(k: Procs, p: Pid) -> Reason
    ensures { meant result ≡ reason_at (Stands.numbers k) p.0 }
{
    if p == k.running {
        return Reason::Running;
    }
    if p == Pid(0) {
        return Reason::Behind(k.running.0);
    }
    reason_at(k.running, k.class_of(k.running), spot_of(k.queues.next, p))
}

fn judge(k: Kernel, name: u32) -> Result<(), Refusal>
    ensures { Judged (refusals name) k (told result) }
{
    verdicts::on_why(k.facts(), names::is_name(k.births, name))
}

/// Why the process of that name waits.
pub fn why(k: Kernel, name: u32) -> Explained
    ensures { Explains Holds k name result }
{
    let v = judge(k, name);
    let answer = k.answer_found(v);
    let reason = match v {
        Ok(()) => Some(reason_of(k.procs, Pid(names::bare(name) as u8))),
        Err(_) => None,
    };
    Explained { answer, reason }
}
