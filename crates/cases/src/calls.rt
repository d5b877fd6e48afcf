// The calls that a line can name, with their numbers. Each writes its answer, 0 or the refusal, and what it gives.
use crate::line::Line;
use aggregates::{change, go, lead, total};
use bench::{Bench, Cause};
use calendar::{Numbering, week};
use carry::carry;
use decision::global_data;
use one_record::step_bytes;
use process::Closing;
use refusal::{Refusal, answer_number};
use run::run_bytes;
use std::fmt::Display;
use std::io;
use transit::in_transit;

fn say(rt: &impl Print, x: impl Display + Drop) -> io::Result<()> {
    print!(rt; " {x}")
}

// 0, or the refusal's number.
fn say_answer<T: Drop>(rt: &impl Print, answer: Result<T, Refusal>) -> io::Result<()> {
    say(rt, answer_number(&answer))
}

// The same, and after 0 what the call gives.
fn say_value(rt: &impl Print, answer: Result<impl Display + Drop, Refusal>) -> io::Result<()> {
    match answer {
        Ok(value) => print!(rt; " 0 {value}"),
        Err(refusal) => say(rt, refusal.number()),
    }
}

fn say_closing(rt: &impl Print, closing: Option<Closing>) -> io::Result<()> {
    match closing {
        None => say(rt, "-"),
        Some(Closing::NextRound) => say(rt, "next"),
        Some(Closing::Agreed) => say(rt, "agreed"),
        Some(Closing::LastRound) => say(rt, "last"),
    }
}

fn say_cause(rt: &impl Print, cause: Cause) -> io::Result<()> {
    match cause {
        Cause::Empty => say(rt, "empty"),
        Cause::Spent => say(rt, "spent"),
        Cause::Refused(refusal) => say(rt, refusal.number()),
    }
}

// Refused, the all-zero bench comes back, and each call finds that damaged.
fn open(rt: &impl Print, bench: &mut Bench, n: u8, t: u8) -> io::Result<()> {
    let opened = Bench::open_or_zero(n, t);
    *bench = opened.bench;
    say_answer(rt, opened.answer)
}

// A budget and bytes: the call for one record and run are both given the bench, and the one that run gives is kept.
fn records(rt: &impl Print, bench: &mut Bench, budget: u8, bytes: &[u8]) -> io::Result<()> {
    let stepped = step_bytes(*bench, bytes);
    say_answer(rt, stepped.answer)?;
    say_closing(rt, stepped.closing)?;
    let ended = run_bytes(*bench, bytes, u32::from(budget));
    *bench = ended.bench;
    say(rt, ended.accepted)?;
    say_cause(rt, ended.cause)?;
    say_closing(rt, ended.closing)
}

// A process, from 1.
fn process(rt: &impl Print, bench: &Bench, number: u8) -> io::Result<()> {
    let p = bench.processes[(usize::from(number) + 15) % 16];
    say(rt, p.round)?;
    say(rt, u8::from(p.has_decided()))?;
    say(rt, p.current)?;
    say(rt, bench.crashed)
}

// Of sixteen words, all 9, so many are lent.
fn data(rt: &impl Print, bench: &Bench, process: u8, words: u8) -> io::Result<()> {
    let mut all = [9; 16];
    let Some(lent) = all.get_mut(..usize::from(words)) else {
        return Ok(());
    };
    let marks = global_data(bench, process, lent);
    say_value(rt, marks)?;
    for word in &all[..3] {
        say(rt, *word)?;
    }
    Ok(())
}

// Three bytes are lent.
fn list(rt: &impl Print, bench: &Bench) -> io::Result<()> {
    say_answer(rt, in_transit(bench, &mut [0; 3]))
}

// Of four standing values so many are lent.
fn sum(rt: &impl Print, n: u8, marks: u8, standing: u8) -> io::Result<()> {
    match [50, 60, 70, 80].get(..usize::from(standing)) {
        Some(lent) => say_value(rt, total(n, &[5, 6, 7], u16::from(marks), lent)),
        None => Ok(()),
    }
}

// Every word is the largest, present or not.
fn greatest(rt: &impl Print, n: u8, marks: u8) -> io::Result<()> {
    let all = [u32::MAX; 16];
    say_value(rt, total(n, &all, u16::from(marks), &all))
}

// The change is from 4.
fn aggregate(rt: &impl Print, n: u8, marks: u8, process: u8, entries: &[u32]) -> io::Result<()> {
    let marks = u16::from(marks);
    say_answer(rt, go(n, entries, marks))?;
    say_answer(rt, lead(n, entries, marks))?;
    say_answer(rt, change(n, entries, marks, process, 4))
}

// A value's word, of 8 bits each.
fn word(portions: u8, diet: u8) -> u32 {
    u32::from_le_bytes([portions, 0, diet, 0])
}

// Three entries, as portions and diet portions; the standing values are 50, 60 and 70.
fn values(rt: &impl Print, line: &Line) -> io::Result<()> {
    let [n, marks, process, p, p_diet, q, q_diet, r, r_diet, ..] = line.numbers;
    let entries = [word(p, p_diet), word(q, q_diet), word(r, r_diet)];
    aggregate(rt, n, marks, process, &entries)?;
    say_value(rt, total(n, &entries, u16::from(marks), &[50, 60, 70]))
}

// The week as two numbers, the high one first, and the bytes of the calendar. A refused week has no numbering: it is
// written as zeros.
fn calendar(rt: &impl Print, asked: u16, bytes: &[u8]) -> io::Result<()> {
    let found = week(bytes, asked);
    say_answer(rt, found)?;
    let numbering = found.unwrap_or(Numbering {
        n: 0,
        process_of: [0; 16],
        site_of: [0; 16],
    });
    say(rt, numbering.n)?;
    for number in numbering.process_of.iter().chain(&numbering.site_of) {
        say(rt, *number)?;
    }
    Ok(())
}

// Makes a line's call, by its letter, on the bench. Any other letter is no call.
pub fn answer(rt: &impl Print, bench: &mut Bench, line: &Line) -> io::Result<()> {
    let [first, second, third, ..] = line.numbers;
    match line.letter {
        Some(b'o') => open(rt, bench, first, second),
        Some(b'r') => records(rt, bench, first, line.after(1)),
        // Process 2 is put into a round, so that the bench can be damaged.
        Some(b'f') => {
            bench.processes[1].round = first;
            Ok(())
        }
        Some(b'p') => process(rt, bench, first),
        Some(b'd') => data(rt, bench, first, second),
        Some(b'i') => list(rt, bench),
        // The bench is as it was in any case.
        Some(b'c') => say_answer(rt, carry(*bench).answer),
        Some(b't') => sum(rt, first, second, third),
        Some(b'g') => greatest(rt, first, second),
        Some(b'a') => aggregate(rt, first, second, third, &[5, 6, 7]),
        Some(b'v') => values(rt, line),
        Some(b'w') => calendar(rt, u16::from_be_bytes([first, second]), line.after(2)),
        _ => Ok(()),
    }
}
