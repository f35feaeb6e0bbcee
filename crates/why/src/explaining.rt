// What is told about a process, as one text without its newline. Assumes nothing.
ghost use Rattle.wording.specs.Promises.{room};
ghost use Rattle.telling.specs.Promise.{OfInput, Gives};
ghost use Rattle.why.specs.Promise.{Explained, Answers};

use script::numbers::read_number;
use telling::Told;
use verdicts::Refusal;

// The answer to the question, in words.
fn explain(state: &[u8], name: u32, out: &mut [u8]) -> Told
    ensures { Gives room (Explained state.now name) out.old out.new result }
{
    let w = board::why(state, name);
    if w.answer.code == Refusal::NotSound.code() {
        return telling::not_sound(out);
    }
    let Some(reason) = w.reason else {
        return telling::refuse(
            out,
            b"No process has this name now. The status page has the names.",
        );
    };
    let p = names::bare(name);
    let length = wording::put_sentence(out, p as u8, reason);
    Ok(length)
}

fn about(state: &[u8], name: u32, out: &mut [u8]) -> Told
    ensures { Gives room (OfInput state.now (Explained state.now name)) out.old out.new result }
{
    // Said here and in status: a function around both answers would take a closure, and with it a `requires`, which no public function has.
    if state.is_empty() {
        return telling::no_state(out);
    }
    explain(state, name, out)
}

// Any area and any word. Where the text does not fit into out, nothing is written there and the length is 0.
pub(crate) fn tell(state: &[u8], word: &[u8], out: &mut [u8]) -> Told
    ensures { Answers state.now word.now out.old out.new result }
{
    let Some(name) = read_number(word) else {
        return telling::refuse(
            out,
            b"Which process? Its name is wanted, as create answered it.",
        );
    };
    about(state, name, out)
}
