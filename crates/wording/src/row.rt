// A row in words: its line on a page. Assumes nothing.
ghost use Rattle.std.specs.Prelude.{◌≡◌};
ghost use Rattle.answers.specs.Answer.{decimal};
ghost use Rattle.names.specs.Counts.{count_in};
ghost use Rattle.plain.specs.Names.{name};
ghost use Rattle.wording.specs.Promises.{more};
ghost use Rattle.wording.specs.Page.{cell, order, queued, stands, bytes, in_hand, row_line};

use crate::phrase::{LINE, Line, Phrase};
use names::name_of;
use rows::{AT_MAILBOX, AT_SEMAPHORE, READY, RUNNING, Row};
use sizes::{PROCESSES, Pid};

impl Phrase<LINE> {
    fn say_order(self, n: u8) -> Line
        ensures { result ≡ more self (order n) }
    {
        match n {
            0 => self.say(b"first"),
            _ => self.say_number(n).say(b" ahead"),
        }
    }

    fn say_queued(self, place: &[u8], x: u8, n: u8) -> Line
        ensures { result ≡ more self (queued place.now x n) }
    {
        let named = self.say(place).say_number(x);
        named.say(b", ").say_order(n)
    }

    fn say_stands(self, row: Row) -> Line
        ensures { result ≡ more self (stands row) }
    {
        match row.place {
            RUNNING => self.say(b"runs"),
            READY => self.say_queued(b"ready in class ", row.which, row.position),
            AT_MAILBOX => self.say_queued(b"at mailbox ", row.which, row.position),
            AT_SEMAPHORE => self.say_queued(b"at semaphore ", row.which, row.position),
            _ => self.say(b"stands by"),
        }
    }

    fn say_bytes(self, n: u16) -> Line
        ensures { result ≡ more self (bytes n) }
    {
        match n {
            1 => self.say(b"1 byte"),
            _ => self.say_decimal(n as u32).say(b" bytes"),
        }
    }

    fn say_hand(self, row: Row) -> Line
        ensures { result ≡ more self (in_hand row) }
    {
        if row.full == 0 {
            return self.say(b"nothing");
        }
        self.say(b"a message of ").say_bytes(row.length)
    }

    fn say_cell(self, text: Line, width: usize) -> Line
        ensures { result ≡ more self (cell width text) }
    {
        let text = text.text();
        let mut line = self.say(text);
        for _ in text.len()..width {
            line = line.say(b" ");
        }
        line
    }

    fn say_number_cell(self, n: u8, width: usize) -> Line
        ensures { result ≡ more self (cell width (decimal n)) }
    {
        self.say_cell(Line::new().say_number(n), width)
    }

    fn say_place_cell(self, row: Row, width: usize) -> Line
        ensures { result ≡ more self (cell width (stands row)) }
    {
        self.say_cell(Line::new().say_stands(row), width)
    }

    fn say_name_cell(self, births: [u8; PROCESSES], p: Pid, width: usize) -> Line
        ensures { result ≡ more self (cell width (decimal (name (count_in births) p.0))) }
    {
        let n = name_of(births, p);
        self.say_cell(Line::new().say_decimal(n), width)
    }
}

pub(crate) fn row_line(births: [u8; PROCESSES], process: u8, row: Row) -> Line
    ensures { result ≡ row_line (name (count_in births)) process row }
{
    let who = Line::new().say_number_cell(process, 9);
    let named = who.say_name_cell(births, Pid(process), 7);
    let place = named.say_place_cell(row, 30);
    let class = place.say_number_cell(row.class, 7);
    let ticks = class.say_number_cell(row.ticks, 12);
    ticks.say_hand(row).say(b"\n")
}
