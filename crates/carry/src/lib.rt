// Carrying a bench of before diet portions over: refused by 2, then by 16, and no word of it changes.
#![tactic(auto)]

ghost use Rattle.std.specs.Prelude.{◌≡◌, true};
ghost use Rattle.sets.specs.Truth.{less, select};
ghost use Rattle.bench.specs.Calls.{answer_of};
ghost use Rattle.bench.specs.Carry.{plain_data, plain_bench, carry_refusal, carry_of};

use bench::{Bench, Carried};
use global_data::GlobalData;
use refusal::Refusal;
use sets::member;
use soundness::{all_pass, ensure_sound};

// Whether a word has no high half; under an absent entry it does not count. No branch, so that the loop over the
// words has none.
#[tactic(auto, unfolding(sets::specs::Truth::select, sets::specs::Truth::less))]
fn word_plain(present: bool, word: u32) -> bool
    ensures { result ≡ select present (less word 65536) true }
{
    !present | (word < 65536)
}

// All sixteen entries count, used or not.
fn data_plain(g: &GlobalData) -> bool
    ensures { result ≡ plain_data g.now }
{
    let mut ok = true;
    for (k, word) in g.values.iter().enumerate() {
        ok = ok & word_plain(member(g.present, k), *word);
    }
    ok
}

// Every estimate and every row of what was sent counts, used or not.
fn is_plain(b: &Bench) -> bool
    ensures { result ≡ plain_bench b.now }
{
    all_pass(&b.processes, |p| data_plain(&p.estimate)) & all_pass(&b.sent, data_plain)
}

// Whether a bench can be carried over: the first check that fails is the answer.
pub fn checked(b: &Bench) -> Result<(), Refusal>
    ensures { result ≡ answer_of (carry_refusal b.now) }
{
    ensure_sound(b)?;
    if is_plain(b) {
        Ok(())
    } else {
        Err(Refusal::LargeValue)
    }
}

// The words of a bench that is not refused are its words in the new form.
pub fn carry(b: Bench) -> Carried
    ensures { result ≡ carry_of b }
{
    Carried {
        answer: checked(&b),
        bench: b,
    }
}
