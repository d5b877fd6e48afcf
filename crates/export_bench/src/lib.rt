// The calls for a host in C or Rust (include/gerzulan.h) on a bench that it lends: each works on it where it lies.
// What a call answers is a number, by the definitions of `refusal` and `answers`.
#![tactic(auto)]

ghost use Rattle.std.specs.Prelude.{◌≡◌};
ghost use Rattle.process.specs.Steps.{closing_number};
ghost use Rattle.bench.specs.Calls.{open_of, step_of, tally_of, run_of, show_of, shown_in};
ghost use Rattle.bench.specs.Carry.{carry_of};
ghost use Rattle.bench.specs.TransitList.{list_of, listed_in};
ghost use Rattle.refusal.specs.Host.{answer_number, stored_in};
ghost use Rattle.answers.specs.Numbers.{cause_number, word_number, progress_of};

use answers::{Progress, cause_number, closing_number, word_number};
use bench::{Bench, Counters};
use carry::checked;
use decision::global_data;
use one_record::{answer_to, record_in, tally_after};
use refusal::{answer_number, store};
use run::run_in;
use transit::in_transit;

// Opens a bench of n processes of which t may crash. Refused, b stays.
#[unsafe(no_mangle)]
pub extern "C" fn gerzulan_bench_open(b: &mut Bench, n: u8, t: u8) -> u32
    ensures { (result ≡ answer_number (open_of n t)) × (b.new ≡ stored_in (open_of n t) b.old) }
{
    store(Bench::open(n, t), b)
}

// Carries a bench of before diet portions over. Refused or not, no word of it changes.
#[unsafe(no_mangle)]
pub extern "C" fn gerzulan_bench_carry(b: &mut Bench) -> u32
    ensures { (result ≡ answer_number (carry_of b.old).answer)
        × (b.new ≡ (carry_of b.old).bench) }
{
    answer_number(&checked(b))
}

// One record, with the host's tally; how the round ended is always written.
#[unsafe(no_mangle)]
pub extern "C" fn gerzulan_bench_step(
    b: &mut Bench,
    rec: &[u8],
    tally: &mut Counters,
    closing: &mut u8,
) -> u32
    ensures { (result ≡ answer_number (step_of b.old rec.now).answer)
        × (b.new ≡ (step_of b.old rec.now).bench)
        × (tally.new ≡ tally_of b.old rec.now tally.old)
        × (closing.new ≡ closing_number (step_of b.old rec.now).closing) }
{
    let r = run_in(b, record_in(rec), 1);
    let answer = answer_to(r.accepted, r.cause);
    *tally = tally_after(*tally, answer, rec);
    *closing = closing_number(r.closing);
    answer_number(&answer)
}

// A run; it gives why it ended: 0 the schedule is empty, 1 the budget is spent,
// else 16 more than the number of the refusal.
#[unsafe(no_mangle)]
pub extern "C" fn gerzulan_bench_run(
    b: &mut Bench,
    schedule: &[u8],
    budget: u32,
    progress: &mut Progress,
) -> u32
    ensures { (result ≡ cause_number (run_of budget schedule.now b.old).cause)
        × (b.new ≡ (run_of budget schedule.now b.old).bench)
        × (progress.new ≡ progress_of (run_of budget schedule.now b.old)) }
{
    let r = run_in(b, schedule, budget);
    *progress = Progress::from(r);
    cause_number(r.cause)
}

// The global data that a process has decided on. It gives the present marks, or the number of
// the refusal in the high 32 bits.
#[unsafe(no_mangle)]
pub extern "C" fn gerzulan_bench_global_data(b: &Bench, process: u8, out: &mut [u32]) -> u64
    ensures { (result ≡ word_number (show_of b.now process out.old))
        × (out.new ≡ shown_in b.now process out.old) }
{
    word_number(global_data(b, process, out).map(|marks| marks as u64))
}

// The list in transit. It gives how many messages there are, or the number of the refusal in the high 32 bits.
#[unsafe(no_mangle)]
pub extern "C" fn gerzulan_bench_in_transit(b: &Bench, out: &mut [u8]) -> u64
    ensures { (result ≡ word_number (list_of b.now out.old))
        × (out.new ≡ listed_in b.now out.old) }
{
    word_number(in_transit(b, out).map(|messages| messages as u64))
}
