// Whether two tables of bytes hold linked queues, and where each member then stands: nodes 0 to `members` - 1 are members, each node
// after these is the head of a queue. Nothing is assumed of the bytes or of the lengths.
// Where a member stands is a byte, 0 for nowhere and q + 1 for queue q, and no Option: whoever asks it of all compares bytes, several at once.
#![tactic(auto)]

pub mod links;

ghost use Rattle.std.specs.Prelude.{◌≡◌, ℕ, ◌+◌, ◌-◌, ◌<◌, length, get_or, MatchOption};
ghost use Rattle.rings.specs.Decides.{Decides};
ghost use Rattle.rings.specs.Walk.{Decision, Settled, Sized, StepOf, Swept, Walk, tables};

/// As many members as there are processes, or buffers: where each stands is an array of that many bytes.
pub const MOST_MEMBERS: usize = 32;

// A byte names a node, and as a mark it names a queue with 1 added.
const MOST_NODES: usize = u8::MAX as usize;

// One step along a ring: back to its head, on to a member, or neither. Three ways, which no Option has.
#[derive(Clone, Copy)]
enum Step {
    Closes,
    To(usize),
    Broken,
}

// The links on and back of at most MOST_MEMBERS members and at most MOST_NODES nodes.
#[derive(Clone, Copy)]
struct Lent<'a> {
    next: &'a [u8],
    prev: &'a [u8],
    members: usize,
    ghost sized: { Sized members next.now prev.now },
}

// Entry i, or 0 where there is none: of a slice, where `tables::entry` asks an array, whose length its type says.
fn entry_at(t: &[u8], i: usize) -> usize
    ensures { result ≡ get_or t.now i 0 }
{
    t.get(i).map_or(0, |x| *x as usize)
}

// Whether a node is linked to itself: it is the node after it, and the node before it.
fn alone(after: u8, ahead: u8, own: u8) -> bool
    ensures { Decides result ((after ≡ own) × (ahead ≡ own)) }
{
    after == own && ahead == own
}

// Whether a member has a mark, or is linked to itself.
fn settled(mark: u8, after: u8, ahead: u8, own: u8) -> bool
    ensures { Decides result (mark ≡ 0 → (after ≡ own) × (ahead ≡ own)) }
{
    mark != 0 || alone(after, ahead, own)
}

impl<'a> Lent<'a> {
    // None where there are more members or nodes, or a node lacks a link.
    fn new(next: &'a [u8], prev: &'a [u8], members: usize) -> Option<Lent<'a>>
        ensures { MatchOption result (Sized members next.now prev.now → ⊥) (λ l. (l.next.now ≡ next.now) × (l.prev.now ≡ prev.now) × (l.members ≡ members)) }
    {
        if MOST_MEMBERS < members
            || next.len() < members
            || MOST_NODES < next.len()
            || prev.len() != next.len()
        {
            return None;
        }
        Some(Lent {
            next,
            prev,
            members,
        })
    }

    // One step from node a along the ring of `head`.
    fn advance(&self, at: &[u8; MOST_MEMBERS], head: usize, a: usize) -> Step
        requires { a < length self.now.next.now }
        ensures { StepOf (tables self.now.next.now self.now.prev.now) self.now.members at.now head a result }
    {
        let b = self.next[a] as usize;
        if entry_at(self.prev, b) != a {
            return Step::Broken;
        }
        if b == head {
            return Step::Closes;
        }
        if self.members <= b || at[b] != 0 {
            return Step::Broken;
        }
        Step::To(b)
    }

    // Round the ring of queue q, each member marked with q + 1. Most rings are a head alone, so that is asked first.
    fn walk(&self, at: &mut [u8; MOST_MEMBERS], q: usize) -> bool
        requires { q < length self.now.next.now - self.now.members }
        ensures { Walk (tables self.now.next.now self.now.prev.now) self.now.members (self.now.members + q) (q + 1) at.old (self.now.members + q) result at.new }
    {
        let head = self.members + q;
        if alone(self.next[head], self.prev[head], head as u8) {
            return true;
        }
        let mark = (q + 1) as u8;
        let mut a = head;
        // Along links, so it ends at the head or at a member that has a mark, and not at a count.
        loop {
            match self.advance(at, head, a) {
                Step::Closes => return true,
                Step::Broken => return false,
                Step::To(b) => {
                    at[b] = mark;
                    a = b;
                }
            }
        }
    }

    // Round every ring, from no marks at all.
    fn sweep(&self) -> Option<[u8; MOST_MEMBERS]>
        ensures { Swept (tables self.now.next.now self.now.prev.now) self.now.members (length self.now.next.now - self.now.members) result }
    {
        let mut at = [0u8; MOST_MEMBERS];
        for q in 0..self.next.len() - self.members {
            if !self.walk(&mut at, q) {
                return None;
            }
        }
        Some(at)
    }

    // Whether each member has a mark, or is linked to itself. All are asked, with no early exit: so compiled, several at once.
    fn all_settled(&self, at: &[u8; MOST_MEMBERS]) -> bool
        ensures { Decides result ((p : ℕ) → p < self.now.members → Settled (tables self.now.next.now self.now.prev.now) at.now p) }
    {
        (0..self.members).fold(
            true,
            |all, p| all & settled(at[p], self.next[p], self.prev[p], p as u8),
        )
    }
}

/// Where each member below `members` stands: 0, or the number of its queue plus 1. None if the tables hold no queues.
/// Of slices and a count, though its callers have Links: `Decision` and `one_answer` are for tables of any lengths.
pub fn standing(next: &[u8], prev: &[u8], members: usize) -> Option<[u8; MOST_MEMBERS]>
    ensures { Decision members next.now prev.now result }
{
    let lent = Lent::new(next, prev, members)?;
    let at = lent.sweep()?;
    lent.all_settled(&at).then_some(at)
}
