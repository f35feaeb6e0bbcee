// In words: a reason, at the desk and for a stagehand, and the rows of a state, as a page. Assumes nothing.
#![tactic(auto)]

mod page;
mod phrase;
mod row;
mod sentence;
mod words;

ghost use Rattle.std.specs.Prelude.{◌≤◌, length};
ghost use Rattle.answers.specs.Written.{Written};
ghost use Rattle.names.specs.Counts.{count_in};
ghost use Rattle.plain.specs.Names.{name};
ghost use Rattle.reasons.specs.Reasons.{meant};
ghost use Rattle.verdicts.specs.Answer.{said};
ghost use Rattle.wording.specs.Page.{page, page_room, row_at};
ghost use Rattle.wording.specs.Promises.{room};
ghost use Rattle.wording.specs.Words.{reason_line, sentence};

use crate::page::Page;
use crate::phrase::Line;
use reasons::Reason;
use rows::Row;
use sizes::PROCESSES;
use verdicts::Answer;

/// An area of so many bytes takes every line and every sentence.
pub const LONGEST: usize = phrase::LINE;

/// An area of so many bytes takes every page.
pub const LONGEST_PAGE: usize = page::PAGE;

// Functions and no Display: a text is cut where its room ends, and one reason has two texts, the desk's and the stagehand's.
// Each put_ function writes at the start of out and gives the length written. Where out is too short it writes nothing and gives 0, which
// `Written` promises as a number: no text here is empty, so that 0 is the length of none, and an Option would say no more.

pub fn put_reason_line(out: &mut [u8], a: Answer, reason: Reason) -> usize
    ensures { Written (reason_line (said a) (meant reason)) out.old out.new result }
{
    let line = Line::line(a).say(b" ");
    line.say_words(reason).put(out)
}

pub fn put_sentence(out: &mut [u8], process: u8, reason: Reason) -> usize
    ensures written { Written (sentence process (meant reason)) out.old out.new result }
    ensures short { length (sentence process (meant reason)) ≤ room }
{
    let who = Line::new().say(b"Process ").say_number(process);
    who.say_about(reason).put(out)
}

/// The page of the rows of all processes, with the names that these birth counts give them: two tables by value, which come from two crates.
pub fn put_page(out: &mut [u8], births: [u8; PROCESSES], rows: [Row; PROCESSES]) -> usize
    ensures written { Written (page (name (count_in births)) (row_at rows)) out.old out.new result }
    ensures short { length (page (name (count_in births)) (row_at rows)) ≤ page_room }
{
    let mut text = Page::new();
    page::page_of(&mut text, births, rows);
    text.put(out)
}
