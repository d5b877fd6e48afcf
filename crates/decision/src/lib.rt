// The global data that a process has decided on: its entries in a lent slice, and the present marks.
#![tactic(auto)]

ghost use Rattle.std.specs.Prelude.{◌≡◌, ◌++◌, ◌≤◌, length, drop};
ghost use Rattle.sets.specs.Lists.{each};
ghost use Rattle.bench.specs.Calls.{word_at, show_of, shown_in};

use bench::Bench;
use global_data::GlobalData;
use refusal::Refusal;
use sets::{member, one_to};
use soundness::ensure_sound;

// The first n entries of g, an absent one as 0; what lies past them in `out` stays.
fn put_entries(out: &mut [u32], n: usize, g: &GlobalData)
    requires { (n ≤ 16) × (n ≤ length out.old) }
    ensures { out.new ≡ each n (word_at g.now) ++ drop n out.old }
{
    for (k, word) in out[..n].iter_mut().enumerate() {
        *word = if member(g.present, k) { g.values[k] } else { 0 };
    }
}

// Writes what process `process`, from 1, has decided on, and gives its present marks.
// Nothing is written where it refuses.
pub fn global_data(b: &Bench, process: u8, out: &mut [u32]) -> Result<u16, Refusal>
    ensures value { result ≡ show_of b.now process out.old }
    ensures out_after { out.new ≡ shown_in b.now process out.old }
{
    ensure_sound(b)?;
    if !one_to(b.n, process) {
        return Err(Refusal::Field);
    }
    let n = usize::from(b.n);
    if out.len() < n {
        return Err(Refusal::Slice);
    }
    let p = &b.processes[usize::from(process) - 1];
    if !p.has_decided() {
        return Err(Refusal::Undecided);
    }
    put_entries(out, n, &p.estimate);
    Ok(p.estimate.present)
}
