// Aggregates of global data (document 01: sums of a sheet): of n entries and their present marks, bit i for entry i.
// No word under an absent entry is read. A word holds portions and diet portions; the aggregates read portions, and
// the lead's ties diet portions too.
#![tactic(auto)]

ghost use Rattle.std.specs.Prelude.{◌≡◌, ◌<◌, ◌≤◌, Ok, Err, MatchResult, length, pos, ◌-ℤ◌};
ghost use Rattle.aggregates.specs.Aggregates.{refusal_of, total_to, go, led, changed};
ghost use Rattle.aggregates.specs.Aggregates.{total_of, go_of, lead_of, change_of};
ghost use Rattle.aggregates.specs.Entries.{entry_at, standing_at, counts_for, served, diets_fit};
ghost use Rattle.aggregates.specs.Leader.{contender, leader_to};

use global_data::{Entry, Value, diet_fits};
use refusal::Refusal;
use sets::{one_to, set_within};

// The process that leads, by its number from 1, and its portions.
#[derive(Clone, Copy)]
pub struct Leader {
    pub process: u8,
    pub portions: u16,
}

// A process, by its number from 1, with the value of its entry. The lead is the greatest by the derived order: by
// portions, then by diet portions, then by number.
#[derive(Clone, Copy, PartialEq, Eq, PartialOrd, Ord)]
pub struct Candidate {
    pub value: Value,
    pub process: u8,
}

// At most sixteen entries, and their present marks.
#[derive(Clone, Copy)]
struct Entries<'a> {
    words: &'a [u32],
    marks: u16,
    ghost few: { length words.now ≤ 16 },
}

impl Entries<'_> {
    // Entry i, from 0. Its word is read only where its mark is set.
    fn entry(self, i: usize) -> Entry
        requires { i < length self.words.now }
        ensures { result ≡ entry_at self.entry.words.now self.entry.marks i }
    {
        if sets::member(self.marks, i) {
            Some(Value::from(self.words[i]))
        } else {
            None
        }
    }

    // Whether of no present entry the diet portions exceed the portions.
    fn diets_fit(self) -> bool
        ensures { result ≡ diets_fit (length self.entry.words.now) (entry_at self.entry.words.now self.entry.marks) }
    {
        // no entry ends the loop: `all` has a jump an entry more, and total takes up to a half longer
        let mut fits = true;
        for i in 0..self.words.len() {
            fits = diet_fits(self.entry(i)) & fits;
        }
        fits
    }

    fn are_served(self) -> bool
        ensures { result ≡ go (length self.entry.words.now) (entry_at self.entry.words.now self.entry.marks) }
    {
        (0..self.words.len()).all(|i| is_served(self.entry(i)))
    }

    fn sum(self, standing: &[u32]) -> u64
        requires { length standing.now ≡ length self.words.now }
        ensures { result ≡ total_to (length self.entry.words.now) (standing_at standing.now)
            (entry_at self.entry.words.now self.entry.marks) }
    {
        (0..self.words.len())
            .map(|i| u64::from(counts_for(standing, i, self.entry(i))))
            .sum()
    }

    // Process i, from 0, where its entry is present.
    fn contender(self, i: usize) -> Option<Candidate>
        requires { i < length self.words.now }
        ensures { result ≡ contender i (entry_at self.entry.words.now self.entry.marks i) }
    {
        self.entry(i).map(|value| Candidate {
            value,
            process: i as u8 + 1,
        })
    }

    fn leader(self) -> Option<Candidate>
        ensures { result ≡ leader_to (length self.entry.words.now) (entry_at self.entry.words.now self.entry.marks) }
    {
        (0..self.words.len())
            .filter_map(|i| self.contender(i))
            .max()
    }
}

// The entries, where no check fails. named: the process, where the call uses one, is from 1 to n; stood: the standing
// values, where the call uses them, are n.
fn checked(
    n: u8,
    words: &[u32],
    marks: u16,
    named: bool,
    stood: bool,
) -> Result<Entries<'_>, Refusal>
    ensures { MatchResult result
        (λ e. (refusal_of n marks named stood words.now ≡ Ok tt) × (e.words.now ≡ words.now) × (e.marks ≡ marks))
        (λ r. refusal_of n marks named stood words.now ≡ Err r) }
{
    if !one_to(16, n) {
        return Err(Refusal::Size);
    }
    if !set_within(n, marks) {
        return Err(Refusal::Field);
    }
    if !named {
        return Err(Refusal::Field);
    }
    if words.len() != n as usize {
        return Err(Refusal::Slice);
    }
    if !stood {
        return Err(Refusal::Slice);
    }
    let entries = Entries { words, marks };
    if !entries.diets_fit() {
        return Err(Refusal::Diet);
    }
    Ok(entries)
}

fn is_served(entry: Entry) -> bool
    ensures { result ≡ served entry }
{
    entry.is_some_and(|v| 0 < v.portions)
}

// What an entry counts for, of process i, from 0. Its standing value is read only where the entry is absent.
fn counts_for(standing: &[u32], i: usize, entry: Entry) -> u32
    requires { i < length standing.now }
    ensures { result ≡ counts_for (standing_at standing.now i) entry }
{
    match entry {
        None => standing[i],
        Some(v) => u32::from(v.portions),
    }
}

fn lead_by(leader: Option<Candidate>) -> Result<Leader, Refusal>
    ensures { result ≡ led leader }
{
    let c = leader.ok_or(Refusal::Absent)?;
    Ok(Leader {
        process: c.process,
        portions: c.value.portions,
    })
}

fn difference(portions: u16, standing: u32) -> i64
    ensures { result ≡ pos portions -ℤ pos standing }
{
    i64::from(portions) - i64::from(standing)
}

fn changed_by(standing: u32, entry: Entry) -> Result<i64, Refusal>
    ensures { result ≡ changed standing entry }
{
    let value = entry.ok_or(Refusal::Absent)?;
    Ok(difference(value.portions, standing))
}

// The sum of the portions, of an absent entry the standing value of its process.
pub fn total(n: u8, entries: &[u32], marks: u16, standing: &[u32]) -> Result<u64, Refusal>
    ensures { result ≡ total_of n entries.now marks standing.now }
{
    let entries = checked(n, entries, marks, true, standing.len() == n as usize)?;
    Ok(entries.sum(standing))
}

// Whether no entry is absent and each has at least 1 portion.
pub fn go(n: u8, entries: &[u32], marks: u16) -> Result<bool, Refusal>
    ensures { result ≡ go_of n entries.now marks }
{
    let entries = checked(n, entries, marks, true, true)?;
    Ok(entries.are_served())
}

// The process with the most portions; of equal portions the one with more diet portions, of those equal too the one
// with the highest number.
pub fn lead(n: u8, entries: &[u32], marks: u16) -> Result<Leader, Refusal>
    ensures { result ≡ lead_of n entries.now marks }
{
    let entries = checked(n, entries, marks, true, true)?;
    lead_by(entries.leader())
}

// The portions of a process, from 1, less a standing value.
pub fn change(
    n: u8,
    entries: &[u32],
    marks: u16,
    process: u8,
    standing: u32,
) -> Result<i64, Refusal>
    ensures { result ≡ change_of n entries.now marks process standing }
{
    let entries = checked(n, entries, marks, one_to(n, process), true)?;
    let i = (process - 1) as usize;
    changed_by(standing, entries.entry(i))
}
