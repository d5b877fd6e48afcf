// The lines of the records: each one's number, and 0 or the refusal.
ghost use Rattle.std.specs.Prelude.{◌≡◌, ◌+◌, ◌^◌, ◌<◌, IfOk, OnOk};
ghost use Rattle.std.specs.Io.KnownBytes.{Appends};
ghost use Rattle.simulate.specs.Output.{records_in, lines_of, after_all};
ghost use Rattle.simulate.specs.LinesLaws.{accepted_text};

use bench::{Bench, Cause};
use run::run_bytes;
use std::io;
use std::io::Write;
use text::line::Line;

// Writes the lines of `accepted` records, from number `first` on.
fn write_accepted<W: Write>(out: &mut W, first: u64, accepted: u32) -> io::Result<()>
    requires { first + accepted < 2 ^ 64 }
    ensures { OnOk result (Appends (W.contents out.old) (W.contents out.new) (accepted_text first accepted)) }
{
    for number in first..first + u64::from(accepted) {
        let line = Line {
            number,
            refusal: None,
        };
        write!(out, "{line}")?;
    }
    Ok(())
}

// Writes the lines of the records of `chunk`, numbered from `first`, and gives the bench after them.
// Each run takes records until one is refused, and the next run begins after it: a turn goes on by what a run
// took, which no iterator knows.
pub fn write_lines<W: Write>(
    out: &mut W,
    bench: Bench,
    chunk: &[u8],
    first: u64,
) -> io::Result<Bench>
    requires { first + records_in chunk.now < 2 ^ 64 }
    ensures bench_value { IfOk result (λ b. b ≡ after_all bench chunk.now) }
    ensures written { OnOk result (Appends (W.contents out.old) (W.contents out.new) (lines_of bench first chunk.now)) }
{
    let total = chunk.len().div_ceil(8);
    let mut bench = bench;
    let mut i = 0;
    while i < total {
        let ended = run_bytes(bench, &chunk[i * 8..], u32::MAX);
        bench = ended.bench;
        write_accepted(out, first + i as u64, ended.accepted)?;
        i += ended.accepted as usize;
        if let Cause::Refused(refusal) = ended.cause {
            let line = Line {
                number: first + i as u64,
                refusal: Some(refusal),
            };
            write!(out, "{line}")?;
            i += 1;
        }
    }
    Ok(bench)
}
