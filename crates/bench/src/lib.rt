// A bench of processes, their network and their failure detector, stepped by records.
#![tactic(auto)]

mod open;

use global_data::GlobalData;
pub use open::sizes_open;
use process::{Closing, Process};
use refusal::Refusal;

// A message: an estimate with its round, or a decision. Its global data is kept in the bench.
#[derive(Clone, Copy)]
pub enum Message {
    Estimate { round: usize },
    Decision,
}

// A record, once it is decoded. Processes are numbered from 0 here.
#[derive(Clone, Copy)]
pub enum Event {
    // starts with a value
    Start {
        process: usize,
        value: u32,
    },
    // sends what it owes
    Send {
        process: usize,
        to: usize,
    },
    // a message arrives
    Arrive {
        from: usize,
        to: usize,
        message: Message,
    },
    // closes its round
    Close {
        process: usize,
    },
    // stops for good
    Crash {
        process: usize,
    },
    // notices that another has stopped
    Suspect {
        process: usize,
        other: usize,
    },
}

// The state: n processes and the crash limit t, who has crashed, the processes, for each of them
// and each round from 1 the estimate that it held when the round opened, and for each of them and each message (0: its
// decision) to whom it is on its way.
#[repr(C)]
#[derive(Clone, Copy)]
pub struct Bench {
    pub n: u8,
    pub t: u8,
    pub crashed: u16,
    pub processes: [Process; 16],
    pub sent: [GlobalData; 256],
    pub in_transit: [u16; 272],
}

// What opening gives to who takes a bench in any case: refused, the bench is all zero.
#[derive(Clone, Copy)]
pub struct Opened {
    pub answer: Result<(), Refusal>,
    pub bench: Bench,
}

// What carrying gives; the bench is as it was in any case, and so stands beside the answer.
#[derive(Clone, Copy)]
pub struct Carried {
    pub answer: Result<(), Refusal>,
    pub bench: Bench,
}

// What the call for one record gives, refused or not. A closing is that of an accepted close, and none of any other
// record.
#[derive(Clone, Copy)]
pub struct Stepped {
    pub answer: Result<(), Refusal>,
    pub closing: Option<Closing>,
    pub bench: Bench,
}

// The host's tally.
#[repr(C)]
#[derive(Clone, Copy)]
pub struct Counters {
    pub accepted: u32,
    pub refused: u32,
    pub crashes: u32,
}

// Why a run ended: one of three, and only one of them is a refusal.
#[derive(Clone, Copy)]
pub enum Cause {
    Empty,
    Spent,
    Refused(Refusal),
}

// What a run gives: the bench, how many records it accepted, why it ended, the closing of the last close it stepped,
// and how many bytes of the schedule it took.
#[derive(Clone, Copy)]
pub struct Ended {
    pub bench: Bench,
    pub accepted: u32,
    pub cause: Cause,
    pub closing: Option<Closing>,
    pub taken: usize,
}
