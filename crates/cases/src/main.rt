// Runs the table on standard input: writes each line of it, and after one that names a call what the call answers.
// The only errors are those of reading and writing: each is returned at once, up to `main`, and ends the program.
#![tactic(auto)]

mod calls;
mod line;

use crate::calls::answer;
use crate::line::Line;
use bench::Bench;
use reading::read_full;
use std::io;
use std::io::Write;

// Each call is made on the bench that the lines before it left.
fn lines(rt: &impl Print, text: &[u8]) -> io::Result<()> {
    // no bench is open yet
    let mut bench = Bench::open_or_zero(0, 0).bench;
    let mut line = Line::new();
    for &c in text {
        line.feed(c);
        if c == b'\n' {
            answer(rt, &mut bench, &line)?;
            line = Line::new();
        }
        io::writer(rt).write_all(&[c])?;
    }
    Ok(())
}

// The table is shorter than the buffer.
fn main(rt: HostRuntime) -> io::Result<()> {
    let mut text = [0; 16384];
    let read = read_full(&mut rt.stdin(), &mut text)?;
    lines(&rt, &text[..read])
}
