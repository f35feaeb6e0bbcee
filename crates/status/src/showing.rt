// What is told of the state in an area: its page, or one fault without a newline. Assumes nothing.
ghost use Rattle.telling.specs.Promise.{Gives};
ghost use Rattle.wording.specs.Page.{page_room};
ghost use Rattle.status.specs.Promise.{Shown, Answers};

use telling::Told;

fn show(state: &[u8], out: &mut [u8]) -> Told
    ensures { Gives page_room (Shown state.now) out.old out.new result }
{
    let sheet = listing::sheet_of(state, sizes::PROCESSES);
    let Some(rows) = sheet.rows else {
        return telling::not_sound(out);
    };
    let births = image::read(state).births;
    let length = wording::put_page(out, births, rows);
    Ok(length)
}

// Any area. Where the text does not fit into out, nothing is written there and the length is 0.
pub(crate) fn tell(state: &[u8], out: &mut [u8]) -> Told
    ensures { Answers state.now out.old out.new result }
{
    // Said here and in why: a function around both answers would take a closure, and with it a `requires`, which no public function has.
    if state.is_empty() {
        return telling::no_state(out);
    }
    show(state, out)
}
