// One process's own part in the protocol: what it holds, and its steps. The node, which comes later, is to be built
// on it.
#![tactic(auto)]

ghost use Rattle.std.specs.Prelude.{◌≡◌, ℕ, ◌<◌, ◌≤◌};
ghost use Rattle.global_data.specs.Rows.{Gives};
ghost use Rattle.global_data.specs.declared.GlobalData.{GlobalData};
ghost use Rattle.global_data.specs.GlobalData.{rows_of};
ghost use Rattle.process.specs.Steps.{idle_of, has_decided, takes_part, open_round_of, start_of, keeps, receive_of};
ghost use Rattle.process.specs.Steps.{arrived_of, due_of, next_of, closing_of, opens_next, owed_of};
ghost use Rattle.process.specs.Steps.{decide_of, close_of, adopt_of, message_of, send_of, suspect_of};
ghost use Rattle.process.specs.ClosingLaws.{closing_by, finish_of};
ghost use Rattle.process.specs.Laws.{words_with};
ghost use Rattle.sets.specs.Truth.{select};
ghost use Rattle.sets.specs.Set.{insert_of};

use global_data::{GlobalData, pass};

// Document 01's terminal. Sets are bits, process i at bit i from 0. Its fields are numbers, and no bool, enum or
// Option, since they lie in a host's memory (include/gerzulan.h), where any bits may stand.
#[repr(C)]
#[derive(Clone, Copy)]
pub struct Process {
    // 0 before its start
    pub round: u8,
    // not 0 once it has decided; a step that decides writes 1
    pub decided: u8,
    // before-set and now-set
    pub previous: u16,
    pub current: u16,
    // those it has noticed
    pub suspected: u16,
    // those whom it owes its message
    pub outbox: u16,
    // its estimate, and once it has decided its decision
    pub estimate: GlobalData,
    // for each round from 1, whose estimates have arrived and are kept
    pub received: [u16; 16],
}

// How a round ended (request C-11).
#[derive(Clone, Copy, Debug, PartialEq, Eq)]
pub enum Closing {
    // the next round is open
    NextRound,
    // decided: the sets and the estimates agree
    Agreed,
    // decided: it was round t + 1
    LastRound,
}

// What a close gives.
#[derive(Clone, Copy)]
pub struct Closed {
    pub process: Process,
    pub closing: Closing,
}

impl Closing {
    // The next round is open: the close has not decided.
    #[tactic(auto, unfolding(crate::specs::Steps::opens_next, crate::specs::Steps::closing_number, sets::specs::Truth::same))]
    fn opens_next(self) -> bool
        ensures { result ≡ opens_next self }
    {
        matches!(self, Closing::NextRound)
    }
}

// A set, with y in it where `put` says so.
fn word_with(m: u16, put: bool, y: usize) -> u16
    requires { y < 16 }
    ensures { result ≡ select put (insert_of m y) m }
{
    if put { sets::insert(m, y) } else { m }
}

// The sets, with y in the one at `at`; at 16 there is none, and no branch either. Each is written, since a store at an
// index that is known late makes the next read wait.
fn words_with(mut words: [u16; 16], at: u16, y: usize) -> [u16; 16]
    requires { y < 16 }
    ensures { result ≡ words_with words at y }
{
    for (i, word) in words.iter_mut().enumerate() {
        *word = word_with(*word, at == i as u16, y);
    }
    words
}

// The steps. `n` is how many processes there are, `a` the number of this one, from 0. These are numbers with a clause
// each, and no types: a bench and a node have them as numbers, and would make such a type anew for each step.
impl Process {
    // It has not started.
    pub fn idle() -> Process
        ensures { result ≡ idle_of }
    {
        Process {
            round: 0,
            decided: 0,
            previous: 0,
            current: 0,
            suspected: 0,
            outbox: 0,
            estimate: GlobalData::nothing(),
            received: [0; 16],
        }
    }

    // Every byte but 0 says that it has decided.
    pub fn has_decided(self) -> bool
        ensures { result ≡ has_decided self }
    {
        self.decided != 0
    }

    // It has started and not decided.
    pub fn takes_part(self) -> bool
        ensures { result ≡ takes_part self }
    {
        (0 < self.round) & !self.has_decided()
    }

    // Step 2: the next round opens, and it owes its estimate to the others of its current set.
    pub fn open_round(mut self, a: usize) -> Process
        requires a_bound { a < 16 }
        requires round_bound { self.round < 255 }
        ensures { result ≡ open_round_of a self }
    {
        self.round += 1;
        self.outbox = sets::remove(self.current, a);
        self
    }

    // Step 1: it starts with a value, and round 1 opens.
    pub fn start(mut self, n: usize, a: usize, value: u32) -> Process
        requires n_bound { n ≤ 16 }
        requires a_bound { a < 16 }
        ensures { result ≡ start_of n a value self }
    {
        let all = sets::all(n);
        self.round = 0;
        self.previous = all;
        self.current = sets::difference(all, self.suspected);
        self.estimate = GlobalData::one(a, value);
        self.open_round(a)
    }

    // Whether an estimate of round r from y is kept.
    fn keeps(self, y: usize, r: usize) -> bool
        requires { y < 16 }
        ensures { result ≡ keeps self y r }
    {
        let at = usize::from(self.round);
        !self.has_decided() & ((at < r) | ((r == at) & sets::member(self.current, y)))
    }

    // Step 3: the estimate of round r from y arrives.
    pub fn receive(mut self, y: usize, r: usize) -> Process
        requires y_bound { y < 16 }
        requires le_r { (1 ≤ r) × (r ≤ 16) }
        ensures { result ≡ receive_of y r self }
    {
        let at = if self.keeps(y, r) { (r - 1) as u16 } else { 16 };
        self.received = words_with(self.received, at, y);
        self
    }

    // Whose estimate of this round has arrived, its own among them.
    fn arrived(self, a: usize) -> u16
        requires a_bound { a < 16 }
        requires le_round { (1 ≤ self.round) × (self.round ≤ 16) }
        ensures { result ≡ arrived_of a self }
    {
        sets::insert(self.received[usize::from(self.round - 1)], a)
    }

    // Step 4: each member of the current set has arrived or is suspected.
    pub fn due(self, a: usize) -> bool
        requires a_bound { a < 16 }
        requires le_round { (1 ≤ self.round) × (self.round ≤ 16) }
        ensures { result ≡ due_of a self }
    {
        sets::difference(self.current, sets::union(self.arrived(a), self.suspected)) == 0
    }

    // Document 01's after-set: the members whose estimate arrived, suspected or not.
    pub fn next(self, a: usize) -> u16
        requires a_bound { a < 16 }
        requires le_round { (1 ≤ self.round) × (self.round ≤ 16) }
        ensures { result ≡ next_of a self }
    {
        sets::intersection(self.current, self.arrived(a))
    }

    // How the round ends, where `next` is the next set and `alike` says whether no estimate of that set differs from
    // its own old one. The last round is asked for first.
    fn ending(self, t: usize, next: u16, alike: bool) -> Closing
        requires { t < 16 }
        ensures { result ≡ closing_by t next alike self }
    {
        if usize::from(self.round) == t + 1 {
            return Closing::LastRound;
        }
        if (self.previous == next) & alike {
            Closing::Agreed
        } else {
            Closing::NextRound
        }
    }

    // Steps 4 and 5 but for the estimate, which is filled by one pass over the others' estimates (request C-16). The
    // same pass finds `alike`: whether none of these differs from its own old one.
    pub fn finish(self, n: usize, t: usize, a: usize, next: u16, alike: bool) -> Closed
        requires n_bound { (n ≤ 16) × (t < 16) }
        requires a_bound { a < 16 }
        requires round_bound { self.round < 255 }
        ensures { (result.process ≡ finish_of n t a next alike self) × (result.closing ≡ closing_by t next alike self) }
    {
        let closing = self.ending(t, next, alike);
        let process = if closing.opens_next() {
            let closed = Process {
                previous: self.current,
                current: next,
                ..self
            };
            closed.open_round(a)
        } else {
            self.decide(self.estimate, self.owed(n, a))
        };
        Closed { process, closing }
    }

    // Steps 4 and 5: it closes its round, where `row` gives what each process sent in it. One pass over what the others
    // of the next set sent fills the estimate and finds whether all are alike.
    pub fn close_by<F: Fn(usize) -> GlobalData>(
        self,
        n: usize,
        t: usize,
        a: usize,
        row: F,
    ) -> Closed
        requires n_bound { (n ≤ 16) × (t < 16) }
        requires a_bound { a < 16 }
        requires le_round { (1 ≤ self.round) × (self.round ≤ 16) }
        requires rows { (y : ℕ) → y < 16 → F.pre row y }
        ensures { (rows : ℕ → GlobalData) → Gives (F.post row) rows
            → (result.process ≡ close_of n t a rows self) × (result.closing ≡ closing_of n t a rows self) }
    {
        let next = self.next(a);
        let others = sets::remove(next, a);
        let passed = pass(self.estimate, others, n, row);
        let mut closed = self.finish(n, t, a, next, passed.alike);
        closed.process.estimate = passed.filled;
        closed
    }

    // The same, where `rows` has what each process sent.
    pub fn close(self, n: usize, t: usize, a: usize, rows: [GlobalData; 16]) -> Closed
        requires n_bound { (n ≤ 16) × (t < 16) }
        requires a_bound { a < 16 }
        requires le_round { (1 ≤ self.round) × (self.round ≤ 16) }
        ensures { (result.process ≡ close_of n t a (rows_of rows) self)
            × (result.closing ≡ closing_of n t a (rows_of rows) self) }
    {
        self.close_by(n, t, a, |y| rows[y])
    }

    // Whom it owes a decision: all but itself and those it suspects.
    fn owed(self, n: usize, a: usize) -> u16
        requires n_bound { n ≤ 16 }
        requires a_bound { a < 16 }
        ensures { result ≡ owed_of n a self }
    {
        sets::difference(sets::remove(sets::all(n), a), self.suspected)
    }

    // Step 6: it has decided on g, and owes that to the members of m.
    pub fn decide(mut self, g: GlobalData, m: u16) -> Process
        ensures { result ≡ decide_of g m self }
    {
        self.decided = 1;
        self.outbox = m;
        self.estimate = g;
        self
    }

    // Step 7: the decision g of k arrives.
    pub fn adopt(self, n: usize, a: usize, k: usize, g: GlobalData) -> Process
        requires n_bound { n ≤ 16 }
        requires a_bound { (a < 16) × (k < 16) }
        ensures { result ≡ adopt_of n a k g self }
    {
        if self.takes_part() {
            self.decide(g, sets::remove(self.owed(n, a), k))
        } else {
            self
        }
    }

    // The number of the message it sends: 0, the decision, once it has decided, else its round. By that number the
    // bench keeps to whom it is on its way.
    pub fn message(self) -> usize
        ensures { result ≡ message_of self }
    {
        if self.has_decided() {
            0
        } else {
            usize::from(self.round)
        }
    }

    // It has sent b what it owed.
    pub fn send(mut self, b: usize) -> Process
        requires { b < 16 }
        ensures { result ≡ send_of b self }
    {
        self.outbox = sets::remove(self.outbox, b);
        self
    }

    // It suspects b (document 01: it notices that b has stopped).
    pub fn suspect(mut self, b: usize) -> Process
        requires { b < 16 }
        ensures { result ≡ suspect_of b self }
    {
        self.suspected = sets::insert(self.suspected, b);
        self
    }
}
