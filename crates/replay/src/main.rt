// The replay desk: a script on standard input, one line written for each line read. What is done with the bytes is the crate feed's.
// Here they are read, handed over, and the answers written. What std's read and write do is assumed; where one fails, the program ends with that error.
#![tactic(auto)]

ghost use Rattle.std.specs.Prelude.{take, IfOk, OnErr};
ghost use Rattle.feed.specs.Takes.{FromFresh};
ghost use Rattle.replay.specs.Replays.{Hands, Runs, WholeReplay};
ghost use Rattle.replay.specs.Broken.{Breaks, BreaksReplay, BreaksInput};

use desk::Turn;
use feed::Ongoing;
use script::LONGEST_LINE;
use std::io;

// The bytes of the area that is read into, and of the one that answers are written from.
const OUT_SIZE: usize = 65536;

// The bytes of the messages' store.
const STORE_SIZE: usize = sizes::STORE_SIZE;

// The desk under way, and what it works in: the store, the line that is being read, and the area that answers are written from.
#[derive(Drop)]
struct Session {
    ongoing: Ongoing,
    store: [u8; STORE_SIZE],
    line: [u8; LONGEST_LINE],
    out: [u8; OUT_SIZE],
}

// What is read lies in an area beside the session, since a chunk of it is handed over while the session changes.
impl Session {
    // Before the first byte. By itself, so that the zeros that a session is made of are gone from the stack once it is there.
    #[inline(never)]
    fn fresh() -> Session
        ensures { FromFresh result.ongoing }
    {
        Session {
            ongoing: Ongoing::fresh(),
            store: [0; STORE_SIZE],
            line: [0; LONGEST_LINE],
            out: [0; OUT_SIZE],
        }
    }

    // A chunk is handed over until none of it is left. Each time what was answered is written, so that it is there before more is read.
    fn chunk(&mut self, to: &impl Print, bytes: &[u8]) -> io::Result<()>
        ensures ok { IfOk result (λ _. Hands self.old bytes.now self.new) }
        ensures err { OnErr result (Breaks self.old bytes.now self.new) }
    {
        let mut rest = bytes;
        // The loop steps by what feed took, and no iterator is plainer.
        while !rest.is_empty() {
            let f = feed::feed(
                self.ongoing,
                &mut self.store,
                &mut self.line,
                rest,
                &mut self.out,
            );
            self.ongoing = f.next;
            to.write_all(&self.out[..f.wrote])?;
            rest = &rest[f.used..];
        }
        Ok(())
    }

    // One read, and the answers to the lines that end in it. It gives how many bytes were read, none at the end of the input.
    fn turn(
        &mut self,
        reader: &mut impl io::Read,
        to: &impl Print,
        input: &mut [u8],
    ) -> io::Result<usize>
        ensures ok { IfOk result (λ got. Hands self.old (take got input.new) self.new) }
        ensures err { OnErr result (Breaks self.old input.new self.new) }
    {
        let got = reader.read(input)?;
        self.chunk(to, &input[..got])?;
        Ok(got)
    }

    // Reads until the input ends. A proved loop has to end too: it has more turns than any input uses up.
    fn every_turn(
        &mut self,
        reader: &mut impl io::Read,
        to: &impl Print,
        input: &mut [u8],
    ) -> io::Result<()>
        requires { FromFresh self.old.ongoing }
        ensures ok { IfOk result (λ _. Runs self.old self.new) }
        ensures err { OnErr result (BreaksReplay self.old self.new) }
    {
        for _ in 0..u64::MAX {
            let got = self.turn(reader, to, input)?;
            if got == 0 {
                break;
            }
        }
        Ok(())
    }

    // Every read, and then the end of the input. By itself too: the area that is read into is not there while a session is made.
    #[inline(never)]
    fn whole_input(&mut self, reader: &mut impl io::Read, to: &impl Print) -> io::Result<Turn>
        requires { FromFresh self.old.ongoing }
        ensures ok { IfOk result (λ last. WholeReplay self.new.store last) }
        ensures err { OnErr result (BreaksInput self.old self.new) }
    {
        let mut input = [0; OUT_SIZE];
        self.every_turn(reader, to, &mut input)?;
        let last = feed::finish(self.ongoing, &mut self.store, &self.line, &mut self.out);
        to.write_all(&self.out[..last.length])?;
        Ok(last)
    }
}

fn main(rt: HostRuntime) -> io::Result<()> {
    let mut session = Session::fresh();
    session.whole_input(&mut rt.stdin(), &rt)?;
    Ok(())
}
