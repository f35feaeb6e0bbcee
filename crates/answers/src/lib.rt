// The line that is written for an answer, without its newline, and the parts that other texts are made of. Assumes nothing.
#![tactic(auto)]

pub mod area;
mod text;

ghost use Rattle.answers.specs.Answer.{bad, decimal, line, read_line};
ghost use Rattle.answers.specs.Written.{Written};
ghost use Rattle.verdicts.specs.Answer.{said};

use itoa::Buffer;
use verdicts::Answer;

/// What a line takes beside hex pairs: three numbers of ten digits, three spaces and a dash.
pub const TEXT_ROOM: usize = 34;

// Each put_ function writes at the start of out and gives the length written. Where out is too short it writes nothing and gives 0, which
// `Written` promises as a number: no text here is empty, so that 0 is the length of none, and an Option would say no more.

pub fn put_bad(out: &mut [u8]) -> usize
    ensures { Written bad out.old out.new result }
{
    area::put(out, b"bad")
}

#[tactic(auto, using(crate::proofs::TextLaws::decimal_printed))]
pub fn put_decimal(out: &mut [u8], n: u32) -> usize
    ensures { Written (decimal n) out.old out.new result }
{
    let mut digits = Buffer::new();
    area::put(out, digits.format(n).as_bytes())
}

pub fn put_line(out: &mut [u8], a: Answer) -> usize
    ensures { Written (line (said a)) out.old out.new result }
{
    area::put(out, text::line(a).as_bytes())
}

pub fn put_read_line(out: &mut [u8], a: Answer, message: &[u8]) -> usize
    ensures { Written (read_line (said a) message.now) out.old out.new result }
{
    let mut head = text::line(a);
    head.push_str(if message.is_empty() { " -" } else { " " });
    area::put_with_pairs(out, head.as_bytes(), message)
}
