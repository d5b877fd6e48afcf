// Checks 6 to 9 of each event, on the parts of the bench that it looks at: the first that fails refuses it. Each begins
// with check 6 in its own words: with a function of it and `?`, three of the five proofs do not close.
#![tactic(auto)]

ghost use Rattle.std.specs.Prelude.{◌≡◌, ◌<◌, ◌≤◌};
ghost use Rattle.bench.specs.Calls.{answer_of};
ghost use Rattle.checks.specs.Checks.{start_check, message_check};
ghost use Rattle.checks.specs.Checks.{close_check, crash_check, suspect_check};

use process::Process;
use refusal::Refusal;

pub fn start_check(crashed: u16, a: usize, round: u8) -> Result<(), Refusal>
    requires { a < 16 }
    ensures { result ≡ answer_of (start_check crashed a round) }
{
    if sets::member(crashed, a) {
        return Err(Refusal::Crashed);
    }
    if round != 0 {
        return Err(Refusal::NotDue);
    }
    Ok(())
}

// a acts on a message for b: m has those to whom it is owed, or is on its way.
pub fn message_check(crashed: u16, a: usize, m: u16, b: usize) -> Result<(), Refusal>
    requires { (a < 16) × (b < 16) }
    ensures { result ≡ answer_of (message_check crashed a m b) }
{
    if sets::member(crashed, a) {
        return Err(Refusal::Crashed);
    }
    if !sets::member(m, b) {
        return Err(Refusal::NotDue);
    }
    Ok(())
}

pub fn close_check(crashed: u16, a: usize, p: Process) -> Result<(), Refusal>
    requires a_bound { a < 16 }
    requires round_bound { p.round ≤ 16 }
    ensures { result ≡ answer_of (close_check crashed a p) }
{
    if sets::member(crashed, a) {
        return Err(Refusal::Crashed);
    }
    if !p.takes_part() | (p.outbox != 0) {
        return Err(Refusal::NotDue);
    }
    if !p.due(a) {
        return Err(Refusal::Waiting);
    }
    Ok(())
}

pub fn crash_check(crashed: u16, a: usize, t: u8) -> Result<(), Refusal>
    requires { a < 16 }
    ensures { result ≡ answer_of (crash_check crashed a t) }
{
    if sets::member(crashed, a) {
        return Err(Refusal::Crashed);
    }
    if t as u32 <= sets::size(crashed) {
        return Err(Refusal::CrashLimit);
    }
    Ok(())
}

// a, which suspects those in m, is to suspect b.
pub fn suspect_check(crashed: u16, a: usize, m: u16, b: usize) -> Result<(), Refusal>
    requires { (a < 16) × (b < 16) }
    ensures { result ≡ answer_of (suspect_check crashed a m b) }
{
    if sets::member(crashed, a) {
        return Err(Refusal::Crashed);
    }
    if !sets::member(crashed, b) | sets::member(m, b) {
        return Err(Refusal::NotDue);
    }
    Ok(())
}
