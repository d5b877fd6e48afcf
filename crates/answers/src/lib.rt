// What a call answers a host as a number, where that is not a refusal's alone: C has no enums with values.
#![tactic(auto)]

ghost use Rattle.std.specs.Prelude.{◌≡◌};
ghost use Rattle.process.specs.Steps.{closing_number};
ghost use Rattle.answers.specs.Numbers.{cause_number, word_number};

use bench::Cause;
use process::Closing;
use refusal::Refusal;
use run::Reached;

// How far a run came: the records it accepted, how the last round ended that it closed, and the bytes of the schedule
// it took.
#[repr(C)]
#[derive(Clone, Copy)]
pub struct Progress {
    pub accepted: u32,
    pub closing: u8,
    pub taken: usize,
}

impl From<Reached> for Progress {
    ghost use Rattle.answers.specs.Numbers.{progress_by};

    ghost from_gives = { λ p r. r ≡ progress_by p };

    fn from(reached: Reached) -> Progress {
        Progress {
            accepted: reached.accepted,
            closing: closing_number(reached.closing),
            taken: reached.taken,
        }
    }
}

// Why a run ended.
pub fn cause_number(c: Cause) -> u32
    ensures { result ≡ cause_number c }
{
    match c {
        Cause::Empty => 0,
        Cause::Spent => 1,
        Cause::Refused(r) => 16 + r.number() as u32,
    }
}

// How a round ended.
#[tactic(auto, unfolding(process::specs::Steps::closing_number))]
pub fn closing_number(c: Option<Closing>) -> u8
    ensures { result ≡ closing_number c }
{
    match c {
        None => 0,
        Some(Closing::NextRound) => 1,
        Some(Closing::Agreed) => 2,
        Some(Closing::LastRound) => 3,
    }
}

// What a reading call gives, or its refusal in the high half.
pub fn word_number(a: Result<u64, Refusal>) -> u64
    ensures { result ≡ word_number a }
{
    match a {
        Ok(word) => word,
        Err(r) => r.number() as u64 * 4294967296,
    }
}
