// The rows of all processes as a page, said line by line. Assumes nothing.
ghost use Rattle.std.specs.Prelude.{◌≡◌, []};
ghost use Rattle.names.specs.Counts.{count_in};
ghost use Rattle.plain.specs.Names.{name};
ghost use Rattle.plain.specs.Sizes.{processes};
ghost use Rattle.wording.specs.Page.{header, is_used, line_of, unused_in, unused_line, page, row_at};

use crate::phrase::{LINE, Line, Phrase};
use crate::row::row_line;
use rows::{RUNNING, Row, STANDING_BY};
use sizes::PROCESSES;

// The room of a page: the header, a line for each process and the last line.
pub(crate) const PAGE: usize = (PROCESSES + 2) * LINE;

pub(crate) type Page = Phrase<PAGE>;

fn header() -> Line
    ensures { result ≡ header }
{
    Line::new().say(b"Process  Name   Stands                        Class  Ticks left  In hand\n")
}

fn unused_line(n: u8) -> Line
    ensures { result ≡ unused_line n }
{
    match n {
        0 => Line::new().say(b"No process is unused.\n"),
        1 => Line::new().say(b"1 process is unused.\n"),
        _ => Line::new().say_number(n).say(b" processes are unused.\n"),
    }
}

fn is_used(row: Row) -> bool
    ensures { result ≡ is_used row }
{
    matches!(row.place, RUNNING..=STANDING_BY)
}

fn unused_in(rows: [Row; PROCESSES]) -> u8
    ensures { result ≡ unused_in processes (row_at rows) }
{
    rows.iter().filter(|row| !is_used(**row)).count() as u8
}

// The line of a process; nothing where it is unused.
fn line_of(births: [u8; PROCESSES], process: u8, row: Row) -> Line
    ensures { result ≡ line_of (name (count_in births)) process row }
{
    if is_used(row) {
        return row_line(births, process, row);
    }
    Line::new()
}

// Into a page that is lent: handed on, it would stand on the stack three times.
pub(crate) fn page_of(text: &mut Page, births: [u8; PROCESSES], rows: [Row; PROCESSES])
    requires { text.old ≡ [] }
    ensures { text.new ≡ page (name (count_in births)) (row_at rows) }
{
    text.add(header().text());
    for i in 0..PROCESSES {
        let line = line_of(births, i as u8, rows[i]);
        text.add(line.text());
    }
    text.add(unused_line(unused_in(rows)).text());
}
