// The call for one record and the host's tally, by value, and the part of a schedule that is left.
// The forms that lend a struct or hand back the rest of the schedule are in `host`.
#![tactic(auto)]

ghost use Rattle.std.specs.Prelude.{◌≡◌, drop, is_ok};
ghost use Rattle.bench.specs.Calls.{raised, step_of, tallied};
ghost use Rattle.one_record.specs.OneRecord.{answer_to, record_in, crash_byte, counted_of};

use bench::{Bench, Cause, Counters, Stepped};
use refusal::Refusal;
use run::run_bytes;

// What the call for one record gives, with the tally after it.
#[derive(Clone, Copy)]
pub struct Counted {
    pub stepped: Stepped,
    pub counters: Counters,
}

// The record in `rec`: its 8 bytes; of any other length there is none.
#[tactic(auto, unfolding(crate::specs::OneRecord::record_in, sets::specs::Truth::select, sets::specs::Truth::same))]
pub fn record_in(rec: &[u8]) -> &[u8]
    ensures { result.now ≡ record_in rec.now }
{
    if rec.len() == Bench::RECORD { rec } else { &[] }
}

// The answer by the end of a run of the record, with a budget of one: no record was taken where there was none.
#[tactic(auto, unfolding(crate::specs::OneRecord::answer_to, sets::specs::Truth::select, sets::specs::Truth::same))]
pub fn answer_to(accepted: u32, cause: Cause) -> Result<(), Refusal>
    ensures { result ≡ answer_to accepted cause }
{
    match cause {
        Cause::Empty if accepted == 0 => Err(Refusal::Length),
        Cause::Empty | Cause::Spent => Ok(()),
        Cause::Refused(r) => Err(r),
    }
}

// Any bench and any bytes: a run of the record in them, with a budget of one.
pub fn step_bytes(b: Bench, rec: &[u8]) -> Stepped
    ensures { result ≡ step_of b rec.now }
{
    let e = run_bytes(b, record_in(rec), 1);
    Stepped {
        answer: answer_to(e.accepted, e.cause),
        closing: e.closing,
        bench: e.bench,
    }
}

// A crash, if it is accepted: its kind is 5.
#[tactic(auto, unfolding(crate::specs::OneRecord::crash_byte, sets::specs::Truth::same))]
fn crash_byte(rec: &[u8]) -> bool
    ensures { result ≡ crash_byte rec.now }
{
    rec.first() == Some(&5)
}

// One more, if it counts and there is room.
fn one_more(counts: bool, x: u32) -> u32
    ensures { result ≡ raised counts x }
{
    if counts { x.saturating_add(1) } else { x }
}

// The tally after an answer to `rec`.
pub fn tally_after(c: Counters, a: Result<(), Refusal>, rec: &[u8]) -> Counters
    ensures { result ≡ tallied (is_ok a) (crash_byte rec.now) c }
{
    let accepted = a.is_ok();
    Counters {
        accepted: one_more(accepted, c.accepted),
        refused: one_more(!accepted, c.refused),
        crashes: one_more(accepted & crash_byte(rec), c.crashes),
    }
}

// The tally by value.
pub fn step_counted(b: Bench, rec: &[u8], c: Counters) -> Counted
    ensures { result ≡ counted_of b rec.now c }
{
    let stepped = step_bytes(b, rec);
    Counted {
        stepped,
        counters: tally_after(c, stepped.answer, rec),
    }
}

// What is left after `at` bytes.
pub fn tail(s: &[u8], at: usize) -> &[u8]
    ensures { result.now ≡ drop at s.now }
{
    s.get(at..).unwrap_or(&[])
}
