// Runs a bench from standard input: the opening record, then a line for each record, then a line for each process.
// The only errors are those of reading and writing: each is returned at once, up to `main`, and ends the program.
#![tactic(auto)]

mod lines;
mod opening;
#[cfg(test)]
mod tests;

ghost use Rattle.std.specs.Prelude.{◌^◌, ◌<◌, length, IfSome, IfOk, OnOk};
ghost use Rattle.std.specs.Io.KnownBytes.{Appends};
ghost use Rattle.simulate.specs.Output.{output_of};
ghost use Rattle.simulate.specs.LinesLaws.{Answered};

use crate::lines::write_lines;
use crate::opening::opening;
use arrayvec::ArrayVec;
use bench::Bench;
use reading::read_full;
use std::fmt::Display;
use std::io;
use std::io::{Read, Write};
use text::line::Line;
use text::processes::Processes;

// Writes the lines of all the records that the input has, and gives the bench after them. The buffer holds 1024
// records. A proved loop has to end, and nothing says that the input does, so it ends too at a number that no run
// reaches.
fn answer_all<R: Read, W: Write>(
    input: &mut R,
    out: &mut W,
    bench: Bench,
    buffer: &mut [u8; 8192],
) -> io::Result<Bench>
    ensures { IfOk result (λ s. Answered bench s
        (R.remaining input.old) (R.remaining input.new) (W.contents out.old) (W.contents out.new)) }
{
    let mut bench = bench;
    // the lines of a part, which are written at once
    let mut page = ArrayVec::<u8, 32768>::new();
    for part in 0..1u64 << 53 {
        let read = read_full(input, buffer)?;
        page.clear();
        bench = write_lines(&mut page, bench, &buffer[..read], part * 1024 + 1)?;
        out.write_all(page.as_slice())?;
        out.flush()?;
        if read < 8192 {
            break;
        }
    }
    Ok(bench)
}

// A text, written at once.
fn write_at_once<W: Write, D: Display + Drop>(out: &mut W, text: D) -> io::Result<()>
    ensures { OnOk result (IfSome (D.output text) (Appends (W.contents out.old) (W.contents out.new))) }
{
    let mut page = ArrayVec::<u8, 32768>::new();
    write!(page, "{text}")?;
    out.write_all(page.as_slice())
}

// The opening record, and then either all the others and the processes, or the one line of its refusal.
// What is written of an input is the output that document 01 gives.
pub fn simulate<R: Read, W: Write>(
    input: &mut R,
    out: &mut W,
    buffer: &mut [u8; 8192],
) -> io::Result<()>
    ensures { OnOk result (IfSome (R.remaining input.old) (λ bytes. length bytes < 2 ^ 66
        → Appends (W.contents out.old) (W.contents out.new) (output_of bytes))) }
{
    let read = read_full(input, &mut buffer[..8])?;
    match opening(&buffer[..read]) {
        Ok(opened) => {
            let bench = answer_all(input, out, opened, buffer)?;
            write_at_once(out, Processes { bench: &bench })?;
        }
        Err(refusal) => {
            let line = Line {
                number: 0,
                refusal: Some(refusal),
            };
            write_at_once(out, line)?;
        }
    }
    out.flush()
}

// The input's buffer is made whole before reading, and holds 1024 records.
fn main(rt: HostRuntime) -> io::Result<()> {
    let mut buffer = [0u8; 8192];
    simulate(&mut rt.stdin(), &mut rt.stdout(), &mut buffer)
}
