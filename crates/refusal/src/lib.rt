// What is turned away: document 01's table, a name for each of its numbers.
#![tactic(auto)]

ghost use Rattle.std.specs.Prelude.{◌≡◌};
ghost use Rattle.refusal.specs.Numbers.{refusal_number};
ghost use Rattle.refusal.specs.Host.{answer_number, stored_in};

#[derive(Clone, Copy, Debug, PartialEq, Eq)]
pub enum Refusal {
    // 1: n is not 1 to 16, or t is not below n
    Size,
    // 2: the bench is damaged
    Damaged,
    // 3: a record is not 8 bytes long
    Length,
    // 4: there is no record of this kind
    Kind,
    // 5: a field of a record is out of range or not 0, or a process or a mark is out of range
    Field,
    // 6: the process that is to act has crashed
    Crashed,
    // 7: the protocol does not allow this now
    NotDue,
    // 8: the close still waits for an arrival or a suspicion
    Waiting,
    // 9: t processes have crashed already
    CrashLimit,
    // 10: a lent slice is too short, or there are not n entries
    Slice,
    // 11: the process has not decided
    Undecided,
    // 12: the entry is absent, or all are
    Absent,
    // 13: a record of the calendar is at fault
    Calendar,
    // 14: no site takes part in the week
    NoSite,
    // 15: there are more diet portions than portions
    Diet,
    // 16: a value from before diet portions is too large
    LargeValue,
}

impl Refusal {
    // Its number in document 01's table.
    pub fn number(self) -> u8
        ensures { result ≡ refusal_number self }
    {
        match self {
            Refusal::Size => 1,
            Refusal::Damaged => 2,
            Refusal::Length => 3,
            Refusal::Kind => 4,
            Refusal::Field => 5,
            Refusal::Crashed => 6,
            Refusal::NotDue => 7,
            Refusal::Waiting => 8,
            Refusal::CrashLimit => 9,
            Refusal::Slice => 10,
            Refusal::Undecided => 11,
            Refusal::Absent => 12,
            Refusal::Calendar => 13,
            Refusal::NoSite => 14,
            Refusal::Diet => 15,
            Refusal::LargeValue => 16,
        }
    }
}

// An answer as a host in C gets it: 0, or the number of the refusal.
pub fn answer_number<T: Drop>(answer: &Result<T, Refusal>) -> u32
    ensures { result ≡ answer_number answer.now }
{
    match answer {
        Ok(_) => 0,
        Err(r) => r.number() as u32,
    }
}

// The same, with what is given stored in what the host lends; refused, that stays.
pub fn store<T: Copy>(answer: Result<T, Refusal>, out: &mut T) -> u32
    ensures number { result ≡ answer_number answer }
    ensures stored { out.new ≡ stored_in answer out.old }
{
    match answer {
        Ok(x) => {
            *out = x;
            0
        }
        Err(r) => r.number() as u32,
    }
}
