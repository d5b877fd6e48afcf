// What each event but a close does to a lent bench: its check, then its effect. Refused, the bench is as it was.
ghost use Rattle.std.specs.Prelude.{◌≡◌, ◌+◌, ◌-◌, ◌*◌, ◌<◌, ◌≤◌};
ghost use Rattle.bench.specs.declared.Event.TheVariants.{Start, Send, Arrive, Crash, Suspect};
ghost use Rattle.bench.specs.Refuse.{number_of, refuses};
ghost use Rattle.bench.specs.Calls.{answer_of};
ghost use Rattle.bench.specs.State.{process_at};
ghost use Rattle.bench.proofs.RecordLaws.{MessageIn};
ghost use Rattle.run.specs.Events.{after_event};

use bench::{Bench, Message};
use checks::{crash_check, message_check, start_check, suspect_check};
use refusal::Refusal;

// Where the row of process a and that round lies, from round 1.
pub(crate) fn row_index(a: usize, round: u8) -> usize
    requires { (a < 16) × (1 ≤ round) × (round ≤ 16) }
    ensures { (result ≡ a * 16 + (round - 1)) × (result < 256) }
{
    a * 16 + (round - 1) as usize
}

// Where the set in transit of process a and that message lies.
fn set_index(a: usize, number: usize) -> usize
    requires { (a < 16) × (number ≤ 16) }
    ensures { (result ≡ a * 17 + number) × (result < 272) }
{
    a * 17 + number
}

// The message's number in transit: its place among the sets of a process, which lie so in a host's memory.
fn number(m: Message) -> usize
    ensures { result ≡ number_of m }
{
    match m {
        Message::Estimate { round } => round,
        Message::Decision => 0,
    }
}

pub(crate) fn start_in(s: &mut Bench, a: usize, value: u32) -> Result<(), Refusal>
    requires { (a < 16) × (s.old.n ≤ 16) }
    ensures bench { s.new ≡ after_event (Start a value) s.old }
    ensures answer { result ≡ answer_of (refuses (Start a value) s.old) }
{
    let p = s.processes[a];
    start_check(s.crashed, a, p.round)?;
    let q = p.start(s.n as usize, a, value);
    s.processes[a] = q;
    s.sent[row_index(a, q.round)] = q.estimate;
    Ok(())
}

pub(crate) fn send_in(s: &mut Bench, a: usize, b: usize) -> Result<(), Refusal>
    requires bounds { (a < 16) × (b < 16) }
    requires round { (process_at s.old a).round ≤ 16 }
    ensures bench { s.new ≡ after_event (Send a b) s.old }
    ensures answer { result ≡ answer_of (refuses (Send a b) s.old) }
{
    let p = s.processes[a];
    message_check(s.crashed, a, p.outbox, b)?;
    let i = set_index(a, p.message());
    s.processes[a] = p.send(b);
    s.in_transit[i] = sets::insert(s.in_transit[i], b);
    Ok(())
}

pub(crate) fn arrive_in(s: &mut Bench, a: usize, b: usize, m: Message) -> Result<(), Refusal>
    requires bounds { (a < 16) × (b < 16) × (s.old.n ≤ 16) }
    requires message { MessageIn 15 m }
    ensures bench { s.new ≡ after_event (Arrive a b m) s.old }
    ensures answer { result ≡ answer_of (refuses (Arrive a b m) s.old) }
{
    let i = set_index(a, number(m));
    message_check(s.crashed, b, s.in_transit[i], b)?;
    s.in_transit[i] = sets::remove(s.in_transit[i], b);
    let p = s.processes[b];
    match m {
        Message::Estimate { round } => s.processes[b] = p.receive(a, round),
        Message::Decision => {
            s.processes[b] = p.adopt(s.n as usize, b, a, s.processes[a].estimate);
        }
    }
    Ok(())
}

pub(crate) fn crash_in(s: &mut Bench, a: usize) -> Result<(), Refusal>
    requires { a < 16 }
    ensures bench { s.new ≡ after_event (Crash a) s.old }
    ensures answer { result ≡ answer_of (refuses (Crash a) s.old) }
{
    crash_check(s.crashed, a, s.t)?;
    s.crashed = sets::insert(s.crashed, a);
    Ok(())
}

pub(crate) fn suspect_in(s: &mut Bench, a: usize, b: usize) -> Result<(), Refusal>
    requires { (a < 16) × (b < 16) }
    ensures bench { s.new ≡ after_event (Suspect a b) s.old }
    ensures answer { result ≡ answer_of (refuses (Suspect a b) s.old) }
{
    let p = s.processes[a];
    suspect_check(s.crashed, a, p.suspected, b)?;
    s.processes[a] = p.suspect(b);
    Ok(())
}
