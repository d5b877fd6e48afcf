// The global data: an entry for each process, absent or a value. An entry is absent where its present
// bit is clear, and 0 is a value.
#![tactic(auto)]

ghost use Rattle.std.specs.Prelude.{◌≡◌, true, ℕ, ◌<◌, ◌≤◌, length, get_or};
ghost use Rattle.sets.specs.Lists.{each};
ghost use Rattle.sets.specs.Set.{has};
ghost use Rattle.sets.specs.Truth.{same, select};
ghost use Rattle.global_data.specs.GlobalData.{portions_of, diet_of, value_in, diet_fits};
ghost use Rattle.global_data.specs.GlobalData.{nothing_of, one_of, fill_of, same_to, fill_from, all_same};
ghost use Rattle.global_data.specs.Rows.{Gives};

// A value: portions, and the diet portions among them. Values are ordered by portions, then by diet portions.
#[derive(Clone, Copy, PartialEq, Eq, PartialOrd, Ord)]
pub struct Value {
    pub portions: u16,
    pub diet: u16,
}

// An entry: document 01's blank, or a value.
pub type Entry = Option<Value>;

// The word of a present entry has its portions in the low half and its diet portions in the high half. Marks and words
// stand side by side, as a host has them (include/gerzulan.h).
#[repr(C)]
#[derive(Clone, Copy)]
pub struct GlobalData {
    pub present: u16,
    pub values: [u32; 16],
}

// What one pass over rows gives: the global data filled from them, and whether each is the same as it before.
#[derive(Clone, Copy)]
pub struct Passed {
    pub filled: GlobalData,
    pub alike: bool,
}

// The portions in a word.
pub fn portions(word: u32) -> u16
    ensures { result ≡ portions_of word }
{
    (word % 65536) as u16
}

// The diet portions in a word.
pub fn diet(word: u32) -> u16
    ensures { result ≡ diet_of word }
{
    (word / 65536) as u16
}

impl From<u32> for Value {
    ghost from_gives = { λ word v. v ≡ value_in word };

    // The value in a word.
    fn from(word: u32) -> Value {
        Value {
            portions: portions(word),
            diet: diet(word),
        }
    }
}

// Whether the diet portions do not exceed the portions; an absent entry has neither.
pub fn diet_fits(entry: Entry) -> bool
    ensures { result ≡ diet_fits entry }
{
    // a `match`: `is_none_or` tests the mark of an entry twice
    match entry {
        None => true,
        Some(v) => v.diet <= v.portions,
    }
}

impl GlobalData {
    // Every entry absent.
    pub fn nothing() -> GlobalData
        ensures { result ≡ nothing_of }
    {
        GlobalData {
            present: sets::empty(),
            values: [0; 16],
        }
    }

    // Entry i alone, with the value in the word v.
    pub fn one(i: usize, v: u32) -> GlobalData
        requires { i < 16 }
        ensures { result ≡ one_of i v }
    {
        let mut w = [0u32; 16];
        w[i] = v;
        GlobalData {
            present: sets::insert(sets::empty(), i),
            values: w,
        }
    }

    // Whether each entry below n is the same in both: the same ones are present, and their words are the same.
    pub fn same(self, other: GlobalData, n: usize) -> bool
        requires { n ≤ 16 }
        ensures { result ≡ same_to n self other }
    {
        let all = sets::all(n);
        let marks = sets::intersection(all, self.present);
        if marks != sets::intersection(all, other.present) {
            return false;
        }
        let mut ok = true;
        for k in 0..16 {
            ok = same_where(sets::member(marks, k), self.values[k], other.values[k]) & ok;
        }
        ok
    }
}

// Whether two words are the same, where that is asked. Words hold nothing but the two numbers, so that they are
// compared as one.
fn same_where(asked: bool, x: u32, y: u32) -> bool
    ensures { result ≡ select asked (same x y) true }
{
    if asked { x == y } else { true }
}

// The words at the members of m are taken from others.
fn take_words(values: &mut [u32; 16], m: u16, words: [u32; 16])
    requires { length values.old ≡ 16 }
    ensures { values.new ≡ each 16 (λ k. select (has m k) (get_or words k 0) (get_or values.old k 0)) }
{
    for k in sets::members(m) {
        values[k] = words[k];
    }
}

// Each absent entry takes that of the row: the words are lent, and where the row has what the marks lack, its word is
// taken. Gives the marks then.
pub fn fill_words(values: &mut [u32; 16], marks: u16, row: GlobalData) -> u16
    requires { length values.old ≡ 16 }
    ensures { fill_of (record { present = marks; values = values.old }) row
        ≡ record { present = result; values = values.new } }
{
    let lacking = sets::difference(row.present, marks);
    // a row that has nothing more is not copied
    if lacking != 0 {
        take_words(values, lacking, row.values);
    }
    sets::union(marks, row.present)
}

// One pass over the rows of the members of a set, the lowest first: each absent entry takes theirs, and they are
// compared in the entries below n. `row` gives the row of a process where it lies.
pub fn pass<F: Fn(usize) -> GlobalData>(old: GlobalData, members: u16, n: usize, row: F) -> Passed
    requires n_bound { n ≤ 16 }
    requires rows { (y : ℕ) → y < 16 → F.pre row y }
    ensures { (rows : ℕ → GlobalData) → Gives (F.post row) rows
        → (result.filled ≡ fill_from 16 members rows old) × (result.alike ≡ all_same 16 n members rows old) }
{
    let mut values = old.values;
    // the words and the marks are apart, so that the marks are stored once
    let mut present = old.present;
    let mut alike = true;
    for y in sets::members(members) {
        let given = row(y);
        present = fill_words(&mut values, present, given);
        if alike {
            alike = given.same(old, n);
        }
    }
    Passed {
        filled: GlobalData { present, values },
        alike,
    }
}
