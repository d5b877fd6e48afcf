// The program on readers and writers in memory, and where one of them fails.
use crate::simulate;
use std::io;
use std::io::{Error, ErrorKind, Read, Write};

// n 2 and t 1.
const OPENING: [u8; 8] = [0, 2, 1, 0, 0, 0, 0, 0];

#[test]
fn outputs(rt: HostRuntime) -> io::Result<()> {
    let fresh = "T 1 0 0 0 - -\nT 2 0 0 0 - -\n";
    let started = "1 0\n2 3\nT 1 1 0 0 40/3 -\nT 2 0 0 0 - -\n";
    let records = [0, 2, 1, 0, 0, 0, 0, 0, 1, 1, 0, 0, 40, 0, 3, 0, 1, 1];
    let cases: [(&[u8], &str); 7] = [
        (&[], "0 3\n"),
        (&[1, 2, 1, 0, 0, 0, 0, 0], "0 4\n"),
        (&[0, 2, 1, 1, 0, 0, 0, 0], "0 5\n"),
        (&[0, 99, 1, 0, 0, 0, 0, 1], "0 5\n"),
        (&[0, 3, 3, 0, 0, 0, 0, 0], "0 1\n"),
        (&OPENING, fresh),
        (&records, started),
    ];
    for (input, want) in cases {
        let mut out = Vec::new(rt.alloc());
        let mut reader = input;
        simulate(&mut reader, &mut out, &mut [0; 8192])?;
        assert!(rt; out.as_slice() == want.as_bytes(), "{input:?}");
    }
    Ok(())
}

// An opening record, then zeros without an end; fails once `left` bytes are given.
#[derive(Drop)]
struct Failing {
    given: usize,
    left: usize,
}

impl Read for Failing {
    fn read(&mut self, buf: &mut [u8]) -> io::Result<usize> {
        if self.left == 0 {
            return Err(Error::from(ErrorKind::BrokenPipe));
        }
        if buf.is_empty() {
            return Ok(0);
        }
        self.left -= 1;
        buf[0] = OPENING.get(self.given).copied().unwrap_or(0);
        self.given = self.given.saturating_add(1);
        Ok(1)
    }
}

#[test]
fn the_lines_before_a_failed_read_are_written(rt: HostRuntime) {
    let mut out = Vec::new(rt.alloc());
    let mut input = Failing {
        given: 0,
        left: 8 + 8192 + 100,
    };
    match simulate(&mut input, &mut out, &mut [0; 8192]) {
        Ok(()) => panic!(rt; "it read on"),
        Err(e) => assert!(rt; e.kind() == ErrorKind::BrokenPipe),
    }
    assert!(rt; out.as_slice().ends_with(b"\n1023 4\n1024 4\n"));
}

#[derive(Drop)]
struct Full;

impl Write for Full {
    fn write(&mut self, _buf: &[u8]) -> io::Result<usize> {
        Err(Error::from(ErrorKind::WriteZero))
    }

    fn flush(&mut self) -> io::Result<()> {
        Ok(())
    }
}

#[test]
fn a_failed_write_ends_it(rt: HostRuntime) {
    let mut input: &[u8] = &OPENING;
    match simulate(&mut input, &mut Full, &mut [0; 8192]) {
        Ok(()) => panic!(rt; "it wrote"),
        Err(e) => assert!(rt; e.kind() == ErrorKind::WriteZero),
    }
}
