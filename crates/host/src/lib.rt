// The calls as a host makes them, in the forms that document 01 names: run hands back the
// part of the lent schedule that it has not taken, and the call for one record updates the tally that the host lends.
// Each is thin, over functions by value.
#![tactic(auto)]

ghost use Rattle.std.specs.Prelude.{◌≡◌, drop};
ghost use Rattle.bench.specs.Calls.{run_of, step_of, tally_of};

use bench::{Bench, Cause, Counters, Stepped};
use one_record::{step_counted, tail};
use process::Closing;
use run::run_bytes;

// What a run gives, with the part of the caller's schedule that it has not taken.
#[derive(Clone, Copy)]
pub struct Ran<'a> {
    pub bench: Bench,
    pub accepted: u32,
    pub cause: Cause,
    pub closing: Option<Closing>,
    pub rest: &'a [u8],
}

// The rest of the caller's schedule is handed back; it begins with the refused record.
pub fn run<'a>(b: Bench, schedule: &'a [u8], budget: u32) -> Ran<'a>
    ensures { (result.bench ≡ (run_of budget schedule.now b).bench)
        × (result.accepted ≡ (run_of budget schedule.now b).accepted)
        × (result.cause ≡ (run_of budget schedule.now b).cause)
        × (result.closing ≡ (run_of budget schedule.now b).closing)
        × (result.rest.now ≡ drop (run_of budget schedule.now b).taken schedule.now) }
{
    let e = run_bytes(b, schedule, budget);
    let rest = tail(schedule, e.taken);
    Ran {
        bench: e.bench,
        accepted: e.accepted,
        cause: e.cause,
        closing: e.closing,
        rest,
    }
}

// The host lends its tally.
pub fn step(b: Bench, rec: &[u8], tally: &mut Counters) -> Stepped
    ensures { (result ≡ step_of b rec.now)
        × (tally.new ≡ tally_of b rec.now tally.old) }
{
    let r = step_counted(b, rec, *tally);
    *tally = r.counters;
    r.stepped
}
