// One line of a replay script: which order it is, and the bytes that it carries. The caller cuts the input into lines. Assumes nothing.
#![tactic(auto)]

pub mod calls;
pub mod hex;
pub mod numbers;
mod words;

ghost use Rattle.script.specs.Request.{Tells};

use crate::calls::Word;

pub const LONGEST_LINE: usize = 8600;

pub fn request(line: &[u8]) -> Option<Word>
    ensures { Tells line.now result }
{
    if LONGEST_LINE < line.len() {
        return None;
    }
    calls::sentence(line)
}
