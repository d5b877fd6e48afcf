// The lines of the processes: `T`, number, round, stopped, decided, and the entries of the estimate,
// which is the decision once it is taken.
ghost use Rattle.std.specs.Prelude.{◌≡◌, ◌<◌, ◌≤◌, ◌+◌, ◌*◌, ◌++◌, Some, length, drop};
ghost use Rattle.global_data.specs.GlobalData.{entry_of};
ghost use Rattle.sets.specs.Lists.{joined};
ghost use Rattle.text.specs.Text.{value_text, entry_text, process_text, processes_text};
ghost use Rattle.text.specs.LengthLaws.{Puts};

use crate::line::{put_byte, put_field, put_value};
use bench::Bench;
use global_data::{Entry, GlobalData, Value};
use process::Process;
use std::fmt;

// A value: its portions and its diet portions.
#[derive(Clone, Copy)]
struct ValueText(Value);

impl fmt::Display for ValueText {
    ghost output = { λ v. Some (value_text v.0) };

    fn fmt<W: fmt::Write>(&self, f: &mut fmt::Formatter<W>) -> fmt::Result {
        let Value { portions, diet } = self.0;
        write!(f, "{portions}/{diet}")
    }
}

// An entry after a space.
#[derive(Clone, Copy)]
struct EntryText(Entry);

impl fmt::Display for EntryText {
    ghost output = { λ e. Some (entry_text e.0) };

    fn fmt<W: fmt::Write>(&self, f: &mut fmt::Formatter<W>) -> fmt::Result {
        match self.0 {
            None => write!(f, " -"),
            Some(value) => write!(f, " {}", ValueText(value)),
        }
    }
}

// The entry of process k, from 0.
fn entry(g: &GlobalData, k: usize) -> Entry
    requires { k < 16 }
    ensures { result ≡ entry_of g.now k }
{
    if sets::member(g.present, k) {
        Some(Value::from(g.values[k]))
    } else {
        None
    }
}

// The line of process a, from 0, of n.
#[derive(Clone, Copy)]
struct ProcessLine {
    n: u8,
    a: u8,
    crashed: bool,
    process: Process,
    ghost few: { n ≤ 16 },
}

impl fmt::Display for ProcessLine {
    ghost output = { λ l. Some (process_text l.n l.a l.crashed l.process) };

    fn fmt<W: fmt::Write>(&self, f: &mut fmt::Formatter<W>) -> fmt::Result {
        let number = u32::from(self.a) + 1;
        let round = self.process.round;
        let crashed = u8::from(self.crashed);
        let decided = u8::from(self.process.has_decided());
        write!(f, "T {number} {round} {crashed} {decided}")?;
        for k in 0..usize::from(self.n) {
            write!(f, "{}", EntryText(entry(&self.process.estimate, k)))?;
        }
        writeln!(f)
    }
}

// The lines of all processes of a bench, which has no more than 16.
#[derive(Clone, Copy)]
pub struct Processes<'a> {
    pub bench: &'a Bench,
    ghost few: { bench.now.n ≤ 16 },
}

impl fmt::Display for Processes<'_> {
    ghost output = { λ p. Some (processes_text p.bench.now) };

    fn fmt<W: fmt::Write>(&self, f: &mut fmt::Formatter<W>) -> fmt::Result {
        for a in 0..self.bench.n {
            let at = usize::from(a);
            let line = ProcessLine {
                n: self.bench.n,
                a,
                crashed: sets::member(self.bench.crashed, at),
                process: self.bench.processes[at],
            };
            write!(f, "{line}")?;
        }
        Ok(())
    }
}

// Beside `Display` stand functions that write to a lent slice and cannot fail. Each gives the place after its text.

// An entry after a space.
fn put_entry(out: &mut [u8], at: usize, shown: Entry) -> usize
    requires { at + 12 ≤ length out.old }
    ensures { Puts 12 out.old at (entry_text shown) out.new result }
{
    match shown {
        None => {
            let p = put_byte(out, at, 32);
            put_byte(out, p, 45)
        },
        Some(value) => put_value(out, at, value.portions, value.diet),
    }
}

// The entries below n.
fn put_entries(out: &mut [u8], at: usize, n: u8, g: &GlobalData) -> usize
    requires { (n ≤ 16) × (at + 12 * n ≤ length out.old) }
    ensures { Puts (12 * n) out.old at (joined n (λ k. entry_text (entry_of g.now k))) out.new result }
{
    let mut place = at;
    for k in 0..n as usize {
        place = put_entry(out, place, entry(g, k));
    }
    place
}

// Process a, from 0, of n.
fn put_process(out: &mut [u8], at: usize, n: u8, a: u8, crashed: bool, p: &Process) -> usize
    requires { (n ≤ 16) × (at + 238 ≤ length out.old) }
    ensures { Puts 238 out.old at (process_text n a crashed p.now) out.new result }
{
    let letter = put_byte(out, at, 84);
    let number = put_field(out, letter, a as u32 + 1);
    let round = put_field(out, number, p.round as u32);
    let crash = put_field(out, round, u32::from(crashed));
    let decided = put_field(out, crash, u32::from(p.has_decided()));
    let entries = put_entries(out, decided, n, &p.estimate);
    put_byte(out, entries, 10)
}

// A line for each process, at the start of `out`.
pub fn put_processes(b: Bench, out: &mut [u8]) -> usize
    requires { (b.n ≤ 16) × (238 * 16 ≤ length out.old) }
    ensures value { result ≡ length (processes_text b) }
    ensures out_after { out.new ≡ processes_text b ++ drop result out.old }
{
    let n = b.n;
    let crashed = b.crashed;
    let mut place = 0;
    for a in 0..n {
        let p = &b.processes[a as usize];
        place = put_process(out, place, n, a, sets::member(crashed, a as usize), p);
    }
    place
}
