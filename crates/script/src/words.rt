// Where a line is cut into words. Assumes nothing.
ghost use Rattle.std.specs.Prelude.{◌≡◌, ◌∷◌, [], MatchOption};
ghost use Rattle.script.specs.Grammar.{words};

use memchr::memchr;

// The word before the first space, and what follows the space; none where the whole is one word.
pub(crate) fn cut(s: &[u8]) -> Option<(&[u8], &[u8])>
    ensures { MatchOption result (words s.now ≡ s.now ∷ []) (λ c. words s.now ≡ c.0.now ∷ words c.1.now) }
{
    let end = memchr(b' ', s)?;
    Some((&s[..end], &s[end + 1..]))
}
