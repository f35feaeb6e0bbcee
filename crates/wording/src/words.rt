// The desk's words for a reason. Assumes nothing.
ghost use Rattle.std.specs.Prelude.{◌≡◌};
ghost use Rattle.reasons.specs.Reasons.{meant};
ghost use Rattle.wording.specs.Promises.{more, Small};
ghost use Rattle.wording.specs.Words.{placed, words};

use crate::phrase::{LINE, Line, Phrase};
use reasons::Reason;

impl Phrase<LINE> {
    fn say_place(self, word: &[u8], x: u8, n: u8) -> Line
        ensures { result ≡ more self (placed word.now x n) }
    {
        let named = self.say(word).say(b" ").say_number(x);
        named.say(b" ").say_number(n)
    }

    pub(crate) fn say_words(self, reason: Reason) -> Line
        ensures { (result ≡ more self (words (meant reason))) × Small (meant reason) }
    {
        match reason {
            Reason::Unused => self.say(b"unused"),
            Reason::Running => self.say(b"running"),
            Reason::Ready(n) => self.say(b"ready ").say_number(n),
            Reason::Mailbox(x, n) => self.say_place(b"mailbox", x, n),
            Reason::Semaphore(x, n) => self.say_place(b"semaphore", x, n),
            Reason::Behind(q) => self.say(b"behind ").say_number(q),
        }
    }
}
