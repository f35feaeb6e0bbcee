// Streams in memory, read and written as a whole: what comes at once, byte by byte, and not at all. Assumes nothing.
use super::*;
use std::io::ErrorKind;
use std::test::Fail;

const LINE: &[u8] = b"no phantom power on 14";

// Gives one byte at each read; after the last it fails where it is to, else it ends.
#[derive(Drop)]
struct Slow<'a> {
    left: &'a [u8],
    fails: bool,
}

impl io::Read for Slow<'_> {
    fn read(&mut self, buf: &mut [u8]) -> io::Result<usize> {
        if self.left.is_empty() && self.fails {
            return Err(io::Error::from(ErrorKind::ConnectionReset));
        }
        let most = buf.len().min(1);
        self.left.read(&mut buf[..most])
    }
}

#[test]
fn reads_until_full_or_ended(rt: HostRuntime) -> Result<(), Fail> {
    for (room, most) in [(0, 0), (10, 10), (22, 22), (30, 22)] {
        let mut area = [b'-'; 30];
        let mut at_once = LINE;
        let got = read_full(&mut at_once, &mut area[..room])?;
        assert_eq!(rt; &area[..got], &LINE[..most], "at once, into {room}");
        assert_eq!(rt; at_once, &LINE[most..], "left of {room}");
        assert!(rt; area[got..].iter().all(|b| *b == b'-'), "behind {got}");
        let mut area = [b'-'; 30];
        let mut slow = Slow {
            left: LINE,
            fails: false,
        };
        let got = read_full(&mut slow, &mut area[..room])?;
        assert_eq!(rt; &area[..got], &LINE[..most], "byte by byte, into {room}");
        assert_eq!(rt; slow.left, &LINE[most..], "left of {room}, byte by byte");
        assert!(rt;
            area[got..].iter().all(|b| *b == b'-'),
            "behind {got}, byte by byte"
        );
    }
    Ok(())
}

#[test]
fn hands_on_that_a_read_failed(rt: HostRuntime) {
    let mut area = [b'-'; 30];
    let mut slow = Slow {
        left: LINE,
        fails: true,
    };
    let failed = read_full(&mut slow, &mut area);
    assert!(rt; failed.is_err_and(|e| e.kind() == ErrorKind::ConnectionReset));
    assert!(rt; area.starts_with(LINE));
}

#[test]
fn writes_a_line(rt: HostRuntime) -> Result<(), Fail> {
    let mut held = Vec::from_slice(rt.alloc(), b"1: ")?;
    write_line(&mut held, LINE)?;
    assert_eq!(rt; held.as_slice(), b"1: no phantom power on 14\n".as_slice());
    Ok(())
}

// Fails at its first write, and takes all that comes after.
#[derive(Drop)]
struct FailsOnce {
    failed: bool,
}

impl io::Write for FailsOnce {
    fn write(&mut self, buf: &[u8]) -> io::Result<usize> {
        if !self.failed {
            self.failed = true;
            return Err(io::Error::from(ErrorKind::ConnectionReset));
        }
        Ok(buf.len())
    }

    fn flush(&mut self) -> io::Result<()> {
        Ok(())
    }
}

// At the text, and at the newline.
#[test]
fn hands_on_that_a_write_failed(rt: HostRuntime) {
    let mut once = FailsOnce { failed: false };
    let failed = write_line(&mut once, LINE);
    assert!(rt; failed.is_err_and(|e| e.kind() == ErrorKind::ConnectionReset));
    let mut area = [b'-'; 22];
    let mut full = &mut area[..];
    let failed = write_line(&mut full, LINE);
    assert!(rt; failed.is_err_and(|e| e.kind() == ErrorKind::WriteZero));
}
