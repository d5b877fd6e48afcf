// The aggregates of global data for a host in C or Rust (include/gerzulan.h). A call gives 0 and writes the lent word,
// or gives the number of its refusal and leaves the word.
#![tactic(auto)]

ghost use Rattle.std.specs.Prelude.{◌≡◌};
ghost use Rattle.aggregates.specs.Aggregates.{total_of, go_of, lead_of, change_of};
ghost use Rattle.sets.specs.Truth.{bit};
ghost use Rattle.refusal.specs.Host.{answer_number, word_in, stored_in};

use refusal::store;

#[unsafe(no_mangle)]
pub extern "C" fn gerzulan_total(
    n: u8,
    entries: &[u32],
    marks: u16,
    standing: &[u32],
    sum: &mut u64,
) -> u32
    ensures { (result ≡ answer_number (total_of n entries.now marks standing.now))
        × (sum.new ≡ stored_in (total_of n entries.now marks standing.now) sum.old) }
{
    store(aggregates::total(n, entries, marks, standing), sum)
}

// 1 for go, else 0.
#[unsafe(no_mangle)]
pub extern "C" fn gerzulan_go(n: u8, entries: &[u32], marks: u16, go: &mut u8) -> u32
    ensures { (result ≡ answer_number (go_of n entries.now marks))
        × (go.new ≡ word_in bit (go_of n entries.now marks) go.old) }
{
    store(aggregates::go(n, entries, marks).map(u8::from), go)
}

// The process and its portions.
#[unsafe(no_mangle)]
pub extern "C" fn gerzulan_lead(
    n: u8,
    entries: &[u32],
    marks: u16,
    process: &mut u8,
    value: &mut u32,
) -> u32
    ensures { (result ≡ answer_number (lead_of n entries.now marks))
        × (process.new
        ≡ word_in (λ c. c.process) (lead_of n entries.now marks) process.old)
        × (value.new
        ≡ word_in (λ c. c.portions) (lead_of n entries.now marks) value.old) }
{
    let lead = aggregates::lead(n, entries, marks);
    store(lead.map(|c| u32::from(c.portions)), value);
    store(lead.map(|c| c.process), process)
}

#[unsafe(no_mangle)]
pub extern "C" fn gerzulan_change(
    n: u8,
    entries: &[u32],
    marks: u16,
    process: u8,
    standing: u32,
    difference: &mut i64,
) -> u32
    ensures { (result ≡ answer_number (change_of n entries.now marks process standing))
        × (difference.new ≡ stored_in (change_of n entries.now marks process standing) difference.old) }
{
    let answer = aggregates::change(n, entries, marks, process, standing);
    store(answer, difference)
}
