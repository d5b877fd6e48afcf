// A record's 8 bytes, decoded: kind, a, b, r, then a value, low byte first; refusals 3, 4, 5 and 15.
#![tactic(auto, using(crate::proofs::Laws::tests), unfolding(sets::specs::Truth::select))]

ghost use Rattle.std.specs.Prelude.{◌≡◌, ◌+◌, ◌-◌, Ok, Err, Some};
ghost use Rattle.sets.specs.Truth.{less, one_to, select};
ghost use Rattle.global_data.specs.GlobalData.{value_in, diet_fits};
ghost use Rattle.refusal.specs.declared.Refusal.TheVariants.{Field, Diet};
ghost use Rattle.bench.specs.Record.{message_from, decode_of};
ghost use Rattle.records.specs.Parts.{pair_in};

mod kind;

use bench::{Event, Message};
use global_data::{Value, diet_fits};
use kind::Kind;
use refusal::Refusal;

// A process, numbered from 1, as an index.
fn index(n: u8, x: u8) -> Result<usize, Refusal>
    ensures { result ≡ select (one_to n x) (Ok (x - 1)) (Err Field) }
{
    if sets::one_to(n, x) {
        Ok(usize::from(x - 1))
    } else {
        Err(Refusal::Field)
    }
}

// Two processes that differ.
#[tactic(auto, using(crate::proofs::Laws::tests), unfolding(sets::specs::Truth::select, crate::specs::Parts::pair_in))]
fn indices(n: u8, a: u8, b: u8) -> Result<(usize, usize), Refusal>
    ensures { result ≡ select (pair_in n a b) (Ok (a - 1, b - 1)) (Err Field) }
{
    if a == b {
        return Err(Refusal::Field);
    }
    Ok((index(n, a)?, index(n, b)?))
}

// A message by its round: 0 is the decision.
fn message(t: u8, r: u8) -> Result<Message, Refusal>
    ensures { result ≡ select (less r (t + 2)) (Ok (message_from r)) (Err Field) }
{
    match usize::from(r) {
        0 => Ok(Message::Decision),
        round if round <= usize::from(t) + 1 => Ok(Message::Estimate { round }),
        _ => Err(Refusal::Field),
    }
}

// A value, whose diet portions are not to exceed its portions.
fn fitting(value: u32) -> Result<u32, Refusal>
    ensures { result ≡ select (diet_fits (Some (value_in value))) (Ok value) (Err Diet) }
{
    if diet_fits(Some(Value::from(value))) {
        Ok(value)
    } else {
        Err(Refusal::Diet)
    }
}

// Any bytes, for a bench of n processes and crash limit t. A field that the kind does not use is 0.
#[tactic(auto, using(crate::proofs::Laws::table), unfolding(sets::specs::Truth::select))]
pub fn decode(n: u8, t: u8, bytes: &[u8]) -> Result<Event, Refusal>
    ensures { result ≡ decode_of n t bytes.now }
{
    let &[kind, a, b, r, v0, v1, v2, v3] = bytes else {
        return Err(Refusal::Length);
    };
    let value = u32::from_le_bytes([v0, v1, v2, v3]);
    match (Kind::try_from(kind)?, b, r, value) {
        (Kind::Start, 0, 0, _) => Ok(Event::Start {
            process: index(n, a)?,
            value: fitting(value)?,
        }),
        (Kind::Send, _, 0, 0) => {
            let (process, to) = indices(n, a, b)?;
            Ok(Event::Send { process, to })
        }
        (Kind::Arrive, _, _, 0) => {
            let (from, to) = indices(n, a, b)?;
            let message = message(t, r)?;
            Ok(Event::Arrive { from, to, message })
        }
        (Kind::Close, 0, 0, 0) => Ok(Event::Close {
            process: index(n, a)?,
        }),
        (Kind::Crash, 0, 0, 0) => Ok(Event::Crash {
            process: index(n, a)?,
        }),
        (Kind::Suspect, _, 0, 0) => {
            let (process, other) = indices(n, a, b)?;
            Ok(Event::Suspect { process, other })
        }
        _ => Err(Refusal::Field),
    }
}
