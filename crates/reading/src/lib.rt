// Reading in parts of a lent buffer, from standard input or any other reader.
#![tactic(auto)]

ghost use Rattle.std.specs.Prelude.{ℕ, List, ◌<◌, IfOk, OnErr, length, take};
ghost use Rattle.std.specs.Io.{ReadsAtMost};
ghost use Rattle.std.specs.Io.KnownBytes.{Consumes, IsAtEnd};

use std::io;
use std::io::Read;

// Fills `buf` until it is full or the input ends, and gives how many bytes it put at the start. A read may give
// fewer bytes than there is room for before the input ends, so only one that gives none is taken for the end.
// After an error any bytes stand in `buf`, and the reader has lost those that it gave before. A turn goes on by what a
// read gave, which no iterator knows.
pub fn read_full<R: Read>(reader: &mut R, buf: &mut [u8]) -> io::Result<usize>
    ensures bound { ReadsAtMost result buf.new }
    ensures bytes { IfOk result (λ n. Consumes (R.remaining reader.old) (R.remaining reader.new) (take n buf.new)) }
    ensures end { IfOk result (λ n. n < length buf.new → IsAtEnd (R.remaining reader.new)) }
    ensures err { OnErr result ((bs : List ℕ) × Consumes (R.remaining reader.old) (R.remaining reader.new) bs) }
{
    let mut done = 0;
    while done < buf.len() {
        let n = reader.read(&mut buf[done..])?;
        if n == 0 {
            return Ok(done);
        }
        done += n;
    }
    Ok(done)
}

#[cfg(test)]
mod tests {
    use super::*;
    use std::io::{Error, ErrorKind};

    // Gives the bytes 1, 2, .. up to `end`, one by one, and fails in place of the one after `fails_after`.
    #[derive(Drop)]
    struct Drip {
        given: u8,
        end: u8,
        fails_after: u8,
    }

    impl Read for Drip {
        fn read(&mut self, buf: &mut [u8]) -> io::Result<usize> {
            if self.given == self.fails_after {
                return Err(Error::from(ErrorKind::BrokenPipe));
            }
            if buf.is_empty() || self.given >= self.end {
                return Ok(0);
            }
            self.given += 1;
            buf[0] = self.given;
            Ok(1)
        }
    }

    #[test]
    fn short_reads_are_not_the_end(rt: HostRuntime) -> io::Result<()> {
        for (end, want) in [(0, 0), (3, 3), (8, 8), (9, 8)] {
            let mut buf = [0u8; 8];
            let mut drip = Drip {
                given: 0,
                end,
                fails_after: 255,
            };
            assert_eq!(rt; read_full(&mut drip, &mut buf)?, want, "at {end}");
            assert_eq!(rt; usize::from(buf[7]), want / 8 * 8, "at {end}");
        }
        Ok(())
    }

    #[test]
    fn an_error_in_mid_stream_comes_back(rt: HostRuntime) {
        let mut buf = [0u8; 8];
        let mut drip = Drip {
            given: 0,
            end: 8,
            fails_after: 2,
        };
        match read_full(&mut drip, &mut buf) {
            Ok(_) => panic!(rt; "it read on"),
            Err(e) => assert!(rt; e.kind() == ErrorKind::BrokenPipe),
        }
    }
}
