// The school calendar (request C-14): which sites take part in a week, and how their processes are numbered.
#![tactic(auto)]

ghost use Rattle.std.specs.Prelude.{◌≡◌, ℕ, ◌+◌, ◌-◌, min};
ghost use Rattle.sets.specs.Set.{has};
ghost use Rattle.sets.specs.Truth.{◌and◌, less};
ghost use Rattle.calendar.specs.Calendar.{period_at, lies, numbering_of, week_of};
ghost use Rattle.calendar.specs.PassLaws.{DecodesKind, DecodesRecord, record_of, with_days, MarksAll};
ghost use Rattle.calendar.specs.PassLaws.{some_day, open_in};

use refusal::Refusal;
use sets::{all, difference, empty, union};

// What a record says of its site.
#[derive(Clone, Copy)]
enum Kind {
    Term,
    Closed,
}

impl TryFrom<u8> for Kind {
    type Error = Refusal;

    ghost try_from_gives = { DecodesKind };

    fn try_from(number: u8) -> Result<Self, Refusal> {
        // An `if`: records have their kinds in any order, and a `match` takes 14 ns a record where this takes 9.
        if !(1..=2).contains(&number) {
            return Err(Refusal::Calendar);
        }
        Ok(if number == 1 {
            Kind::Term
        } else {
            Kind::Closed
        })
    }
}

// A well-formed record: the days on which a site has term or is closed, the first and the last with them.
#[derive(Clone, Copy)]
struct Period {
    site: u8,
    kind: Kind,
    first: u16,
    last: u16,
}

// A record is read where it lies: by value it is loaded whole and taken apart, and takes a fifth longer.
impl TryFrom<&[u8; 8]> for Period {
    type Error = Refusal;

    ghost try_from_gives = { λ bytes r. DecodesRecord (period_at bytes.now 0) r };

    fn try_from(bytes: &[u8; 8]) -> Result<Self, Refusal> {
        let site = bytes[0];
        let kind = Kind::try_from(bytes[1])?;
        let first = u16::from_le_bytes([bytes[2], bytes[3]]);
        let last = u16::from_le_bytes([bytes[4], bytes[5]]);
        let rest = u16::from_le_bytes([bytes[6], bytes[7]]);
        if !(1..=16).contains(&site) || last < first || rest != 0 {
            return Err(Refusal::Calendar);
        }
        Ok(Period {
            site,
            kind,
            first,
            last,
        })
    }
}

// How many of Monday to Friday come before a day. `saturating_sub` and `min` take 9 ns a record where this takes 7.
fn weekdays_before(monday: u32, day: u32) -> usize
    ensures { result ≡ min (day - monday) 5 }
{
    if day <= monday {
        0
    } else {
        (day - monday).min(5) as usize
    }
}

impl Period {
    // Those of Monday to Friday that lie in it.
    fn weekdays(self, monday: u32) -> u16
        ensures { (i : ℕ) → has result i ≡ (less i 5 and lies (monday + i) (record_of self)) }
    {
        let until = weekdays_before(monday, self.last as u32 + 1);
        let from = weekdays_before(monday, self.first as u32);
        difference(all(until), all(from))
    }
}

// How many sites take part, the process of each site and the site of each process; 0 for none. Numbers and two arrays,
// as a host has them (include/gerzulan.h).
#[repr(C)]
#[derive(Clone, Copy)]
pub struct Numbering {
    pub n: u8,
    pub process_of: [u8; 16],
    pub site_of: [u8; 16],
}

// Of one site, as sets: those of Monday to Friday of a week that lie in its records of each kind.
#[derive(Clone, Copy)]
struct Marks {
    term: u16,
    closed: u16,
}

impl Marks {
    // Marks some days of a kind. Both sets are written, with no jump: records have their kinds in any order.
    fn mark(&mut self, kind: Kind, days: u16)
        ensures { self.new ≡ with_days self.old kind days }
    {
        let term = match kind {
            Kind::Term => days,
            Kind::Closed => empty(),
        };
        self.term = union(self.term, term);
        self.closed = union(self.closed, difference(days, term));
    }

    // A day of term that is not closed.
    fn has_open_day(self) -> bool
        ensures { result ≡ some_day self }
    {
        difference(self.term, self.closed) != 0
    }
}

// The one pass over the records. It stops at one that is not well formed.
fn mark_days(calendar: &[u8], monday: u32) -> Result<[Marks; 16], Refusal>
    ensures { MarksAll calendar.now monday result }
{
    let (records, rest) = calendar.as_chunks::<8>();
    if !rest.is_empty() {
        return Err(Refusal::Calendar);
    }
    let mut sites = [Marks { term: 0, closed: 0 }; 16];
    for record in records {
        let period = Period::try_from(record)?;
        sites[period.site as usize - 1].mark(period.kind, period.weekdays(monday));
    }
    Ok(sites)
}

// The numbering of the sites with a day of term that is not closed, in rising number.
fn numbered(sites: &[Marks; 16]) -> Numbering
    ensures { result ≡ numbering_of (open_in sites.now) }
{
    let mut numbering = Numbering {
        n: 0,
        process_of: [0; 16],
        site_of: [0; 16],
    };
    for (i, marks) in sites.iter().enumerate() {
        if marks.has_open_day() {
            numbering.site_of[numbering.n as usize] = i as u8 + 1;
            numbering.n += 1;
            numbering.process_of[i] = numbering.n;
        }
    }
    numbering
}

// Which sites take part in a week, and their numbering.
pub fn week(calendar: &[u8], week: u16) -> Result<Numbering, Refusal>
    ensures { result ≡ week_of calendar.now week }
{
    let sites = mark_days(calendar, 7 * week as u32)?;
    let numbering = numbered(&sites);
    if numbering.n == 0 {
        return Err(Refusal::NoSite);
    }
    Ok(numbering)
}
