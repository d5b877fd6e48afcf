// Run: a bench stepped by the records of a schedule, where it lies or by value. The call for one record is in
// `one_record`, the forms that document 01 names are in `host`.
#![tactic(auto)]

mod close;
mod events;

ghost use Rattle.std.specs.Prelude.{◌≡◌, true};
ghost use Rattle.bench.specs.Sound.{sound_of};
ghost use Rattle.bench.proofs.RecordLaws.{InRange};
ghost use Rattle.bench.specs.Closings.{closing_at};
ghost use Rattle.bench.specs.Refuse.{refuses, refusal};
ghost use Rattle.bench.specs.RunLoop.{closing_in};
ghost use Rattle.bench.specs.Calls.{after_record, run_of};
ghost use Rattle.run.specs.Events.{after_event, verdict_of};
ghost use Rattle.run.specs.Reached.{reached_by, reached_of};

use bench::{Bench, Cause, Ended, Event};
use close::close_in;
use events::{arrive_in, crash_in, send_in, start_in, suspect_in};
use process::Closing;
use records::decode;
use refusal::Refusal;
use soundness::is_sound;

// How far a run came: how many records it accepted, why it ended, how the last round ended that it closed, and how many
// bytes of the schedule it took.
#[derive(Clone, Copy)]
pub struct Reached {
    pub accepted: u32,
    pub cause: Cause,
    pub closing: Option<Closing>,
    pub taken: usize,
}

impl Reached {
    // After so many records.
    fn after(accepted: u32, cause: Cause, closing: Option<Closing>) -> Reached
        ensures { result ≡ reached_by accepted cause closing }
    {
        Reached {
            accepted,
            cause,
            closing,
            taken: Bench::RECORD * accepted as usize,
        }
    }
}

// An event of a sound bench; of a close it tells how the round ended.
fn event_in(s: &mut Bench, e: Event) -> Result<Option<Closing>, Refusal>
    requires sound { sound_of s.old ≡ true }
    requires in_range { InRange s.old.n s.old.t e }
    ensures bench { s.new ≡ after_event e s.old }
    ensures answer { result ≡ verdict_of (refuses e s.old) (closing_at e s.old) }
{
    match e {
        Event::Start { process, value } => start_in(s, process, value)?,
        Event::Send { process, to } => send_in(s, process, to)?,
        Event::Arrive { from, to, message } => arrive_in(s, from, to, message)?,
        Event::Close { process } => return Ok(Some(close_in(s, process)?)),
        Event::Crash { process } => crash_in(s, process)?,
        Event::Suspect { process, other } => suspect_in(s, process, other)?,
    }
    Ok(None)
}

// One record of a sound bench.
fn record_in(s: &mut Bench, bytes: &[u8]) -> Result<Option<Closing>, Refusal>
    requires { sound_of s.old ≡ true }
    ensures bench { s.new ≡ after_record s.old bytes.now }
    ensures answer { result ≡ verdict_of (refusal s.old bytes.now) (closing_in s.old bytes.now) }
{
    let e = decode(s.n, s.t, bytes)?;
    event_in(s, e)
}

// A run of a lent bench. Any bench: a damaged one is refused, with nothing taken.
pub fn run_in(s: &mut Bench, schedule: &[u8], budget: u32) -> Reached
    ensures bench { s.new ≡ (run_of budget schedule.now s.old).bench }
    ensures reached { result ≡ reached_of (run_of budget schedule.now s.old) }
{
    let mut accepted = 0;
    let mut closing = None;
    if !is_sound(s) {
        return Reached::after(accepted, Cause::Refused(Refusal::Damaged), closing);
    }
    for bytes in schedule.chunks(Bench::RECORD) {
        if accepted == budget {
            return Reached::after(accepted, Cause::Spent, closing);
        }
        match record_in(s, bytes) {
            Ok(ended) => closing = ended.or(closing),
            Err(r) => return Reached::after(accepted, Cause::Refused(r), closing),
        }
        accepted += 1;
    }
    Reached::after(accepted, Cause::Empty, closing)
}

pub fn run_bytes(bench: Bench, schedule: &[u8], budget: u32) -> Ended
    ensures { result ≡ run_of budget schedule.now bench }
{
    let mut s = bench;
    let r = run_in(&mut s, schedule, budget);
    Ended {
        bench: s,
        accepted: r.accepted,
        cause: r.cause,
        closing: r.closing,
        taken: r.taken,
    }
}
