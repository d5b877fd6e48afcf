// Refusal 2: whether a bench is damaged.
#![tactic(auto)]

ghost use Rattle.std.specs.Prelude.{◌≡◌, ◌≤◌, Bool, true, false, MatchResult};
ghost use Rattle.std.specs.Fn.{FnReturnsAt};
ghost use Rattle.sets.specs.Lists.{every_in};
ghost use Rattle.bench.specs.Sound.{sound_process, sound_of};

use bench::{Bench, sizes_open};
use process::Process;
use refusal::Refusal;
use sets::set_within;

// Whether every element passes the test. Each is tested, also after one has failed, so that the loop has no branch:
// `all` takes 1.5 to 3 times as long.
pub fn all_pass<T, F: Fn(&T) -> bool>(xs: &[T], test: F) -> bool
    requires { F.IsAlwaysCallable test }
    ensures { (p : T → Bool) → ((x : T) (r : Bool) → FnReturnsAt F.Fn test x r → r ≡ p x)
        → result ≡ every_in p xs.now }
{
    let mut ok = true;
    for x in xs {
        ok = ok & test(x);
    }
    ok
}

// The round is at most t + 1, and every set is within n.
fn process_sound(n: u8, t: u8, p: &Process) -> bool
    requires { n ≤ 16 }
    ensures { result ≡ sound_process n t p.now }
{
    ((p.round as u16) < (t as u16) + 2)
        & set_within(n, p.previous)
        & set_within(n, p.current)
        & set_within(n, p.suspected)
        & set_within(n, p.outbox)
        & set_within(n, p.estimate.present)
        & all_pass(&p.received, |m| set_within(n, *m))
}

// Every process, row and set counts, used or not.
pub fn is_sound(b: &Bench) -> bool
    ensures { result ≡ sound_of b.now }
{
    let n = b.n;
    let t = b.t;
    if !sizes_open(n, t) {
        return false;
    }
    set_within(n, b.crashed)
        & all_pass(&b.processes, |p| process_sound(n, t, p))
        & all_pass(&b.sent, |g| set_within(n, g.present))
        & all_pass(&b.in_transit, |m| set_within(n, *m))
}

// The check of a call that turns a damaged bench away.
pub fn ensure_sound(b: &Bench) -> Result<(), Refusal>
    ensures { MatchResult result (λ _. sound_of b.now ≡ true)
        (λ e. (e ≡ Refusal.Damaged) × (sound_of b.now ≡ false)) }
{
    if is_sound(b) {
        Ok(())
    } else {
        Err(Refusal::Damaged)
    }
}
