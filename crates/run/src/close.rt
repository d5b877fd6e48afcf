// What a close does to a lent bench. Refused, the bench is as it was.
ghost use Rattle.std.specs.Prelude.{◌≡◌, ◌+◌, ◌<◌, ◌≤◌};
ghost use Rattle.bench.specs.declared.Event.TheVariants.{Close};
ghost use Rattle.bench.specs.Refuse.{refuses};
ghost use Rattle.bench.specs.State.{process_at};
ghost use Rattle.run.specs.Events.{closed_of, after_event, verdict_of};

use crate::events::row_index;
use bench::Bench;
use checks::close_check;
use process::Closing;
use refusal::Refusal;

pub(crate) fn close_in(s: &mut Bench, a: usize) -> Result<Closing, Refusal>
    requires sizes { (a < 16) × (s.old.n ≤ 16) × (s.old.t < 16) }
    requires round { (process_at s.old a).round ≤ s.old.t + 1 }
    ensures bench { s.new ≡ after_event (Close a) s.old }
    ensures answer { result ≡ verdict_of (refuses (Close a) s.old) (closed_of a s.old) }
{
    let p = s.processes[a];
    close_check(s.crashed, a, p)?;
    let c = p.close_by(
        s.n as usize,
        s.t as usize,
        a,
        |y| s.sent[row_index(y, p.round)],
    );
    let q = c.process;
    s.processes[a] = q;
    if !q.has_decided() {
        s.sent[row_index(a, q.round)] = q.estimate;
    }
    Ok(c.closing)
}
