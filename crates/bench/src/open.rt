// Opening a bench, its limits, and refusal 1.
ghost use Rattle.std.specs.Prelude.{◌≡◌};
ghost use Rattle.bench.specs.State.{opened_of};
ghost use Rattle.bench.specs.Sound.{opens};
ghost use Rattle.bench.specs.Calls.{open_of, open_or_zero_of};

use crate::{Bench, Opened};
use global_data::GlobalData;
use process::Process;
use refusal::Refusal;

// n is 1 to 16, and t below n.
pub fn sizes_open(n: u8, t: u8) -> bool
    ensures { result ≡ opens n t }
{
    sets::one_to(16, n) & (t < n)
}

impl Bench {
    // The largest n.
    pub const PROCESSES: usize = 16;
    // The largest round: t is below n, and rounds go to t + 1.
    pub const ROUNDS: usize = 16;
    // Rows of what was sent: one for each process and round.
    pub const ROWS: usize = Bench::PROCESSES * Bench::ROUNDS;
    // Sets in transit: one for each process and message, that is its decision and each round.
    pub const SETS: usize = Bench::PROCESSES * (Bench::ROUNDS + 1);
    // The bytes of a record.
    pub const RECORD: usize = 8;

    // Nobody has started or crashed, and nothing is sent.
    #[tactic(auto, unfolding(crate::specs::State::opened_of))]
    fn fresh(n: u8, t: u8) -> Bench
        ensures { result ≡ opened_of n t }
    {
        let p = Process::idle();
        let g = GlobalData::nothing();
        Bench {
            n,
            t,
            crashed: sets::empty(),
            processes: [p; Bench::PROCESSES],
            sent: [g; Bench::ROWS],
            in_transit: [sets::empty(); Bench::SETS],
        }
    }

    // A bench of n processes of which t may crash.
    #[tactic(auto, unfolding(crate::specs::Calls::open_of, sets::specs::Truth::select))]
    pub fn open(n: u8, t: u8) -> Result<Bench, Refusal>
        ensures { result ≡ open_of n t }
    {
        if sizes_open(n, t) {
            Ok(Bench::fresh(n, t))
        } else {
            Err(Refusal::Size)
        }
    }

    // The same, with a bench in any case: refused, the all-zero bench comes back.
    #[tactic(auto, unfolding(crate::specs::Calls::open_or_zero_of, sets::specs::Truth::select))]
    pub fn open_or_zero(n: u8, t: u8) -> Opened
        ensures { result ≡ open_or_zero_of n t }
    {
        if !sizes_open(n, t) {
            return Opened {
                answer: Err(Refusal::Size),
                bench: Bench::fresh(0, 0),
            };
        }
        Opened {
            answer: Ok(()),
            bench: Bench::fresh(n, t),
        }
    }
}
