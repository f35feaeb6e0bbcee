// What the programs for people have in common: a text in a lent area, and whether it is what was asked for or a fault. Assumes nothing.
#![tactic(auto)]

pub mod streams;

ghost use Rattle.std.specs.Prelude.{length};
ghost use Rattle.telling.specs.Promise.{Refused, no_state, not_sound, Gives};

/// The bytes of the area that an input is read into: one more than a state area has, so that a longer input is seen as one of another length.
pub const INPUT: usize = board::SIZE + 1;

/// How many bytes of the lent area the text takes: an Ok's is what was asked for, an Err's a fault.
pub type Told = Result<usize, usize>;

// Each writes its text at the start of out, without a newline. Where out is too short, nothing is written there and the length is 0: a number and no Option, since the promise, Gives, speaks of that length.

pub fn refuse(out: &mut [u8], words: &[u8]) -> Told
    ensures { Gives (length words.now) (Refused words.now) out.old out.new result }
{
    let length = answers::area::put(out, words);
    Err(length)
}

pub fn no_state(out: &mut [u8]) -> Told
    ensures { Gives (length no_state) (Refused no_state) out.old out.new result }
{
    refuse(out, b"There is no state on standard input.")
}

pub fn not_sound(out: &mut [u8]) -> Told
    ensures { Gives (length not_sound) (Refused not_sound) out.old out.new result }
{
    refuse(
        out,
        b"This is not a sound state: it is damaged, or no state area at all.",
    )
}
