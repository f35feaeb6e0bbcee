// What a stagehand is told of a process. Assumes nothing.
ghost use Rattle.std.specs.Prelude.{◌≡◌};
ghost use Rattle.reasons.specs.Reasons.{meant};
ghost use Rattle.wording.specs.Promises.{more, Small};
ghost use Rattle.wording.specs.Words.{ahead_of, waits_at, behind_class, stands_by, about};

use crate::phrase::{LINE, Line, Phrase};
use reasons::Reason;

impl Phrase<LINE> {
    fn say_ahead(self, n: u8) -> Line
        ensures { result ≡ more self (ahead_of n) }
    {
        match n {
            0 => self.say(b"It is next."),
            1 => self.say(b"1 is ahead of it."),
            _ => self.say_number(n).say(b" are ahead of it."),
        }
    }

    fn say_waits(self, word: &[u8], x: u8, n: u8) -> Line
        ensures { result ≡ more self (waits_at word.now x n) }
    {
        let place = self.say(b" waits at ").say(word).say(b" ");
        place.say_number(x).say(b". ").say_ahead(n)
    }

    fn say_class(self, n: u8) -> Line
        ensures { result ≡ more self (behind_class n) }
    {
        match n {
            1 => self.say(b" is ready. 1 of its class is ahead of it: the one that runs."),
            _ => {
                let many = self.say(b" is ready. ").say_number(n);
                many.say(b" of its class are ahead of it, the one that runs among them.")
            }
        }
    }

    fn say_behind(self, q: u8) -> Line
        ensures { result ≡ more self (stands_by q) }
    {
        let runner = self
            .say(b" is ready and waits while process ")
            .say_number(q);
        runner.say(b" runs.")
    }

    pub(crate) fn say_about(self, reason: Reason) -> Line
        ensures { (result ≡ more self (about (meant reason))) × Small (meant reason) }
    {
        match reason {
            Reason::Unused => self.say(b" is not in use."),
            Reason::Running => self.say(b" is running."),
            Reason::Ready(n) => self.say_class(n),
            Reason::Mailbox(x, n) => self.say_waits(b"mailbox", x, n),
            Reason::Semaphore(x, n) => self.say_waits(b"semaphore", x, n),
            Reason::Behind(q) => self.say_behind(q),
        }
    }
}
