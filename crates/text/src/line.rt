// The line of a record.
ghost use Rattle.std.specs.Prelude.{Some, [], ◌∷◌, ◌+◌, ◌≤◌, ◌<◌, length};
ghost use Rattle.bench.specs.TransitLaws.{Stores};
ghost use Rattle.global_data.specs.GlobalData.{entry_with};
ghost use Rattle.text.specs.Text.{decimal, field_of, shown_refusal, entry_text, line_of};
ghost use Rattle.text.specs.LengthLaws.{Puts};

use refusal::Refusal;
use std::fmt;

// The line of record `number`: that, and 0 or the number of what refused it.
#[derive(Clone, Copy)]
pub struct Line {
    pub number: u64,
    pub refusal: Option<Refusal>,
}

impl fmt::Display for Line {
    ghost output = { λ l. Some (line_of l.number (shown_refusal l.refusal)) };

    fn fmt<W: fmt::Write>(&self, f: &mut fmt::Formatter<W>) -> fmt::Result {
        let number = self.number;
        let refusal = self.refusal.map_or(0, |r| r.number());
        writeln!(f, "{number} {refusal}")
    }
}

// Beside `Display` stand functions that write to a lent slice and cannot fail. Each gives the place after its text.

pub fn put_byte(out: &mut [u8], at: usize, b: u8) -> usize
    requires { at < length out.old }
    ensures { Stores out.old at (b ∷ []) out.new result }
{
    out[at] = b;
    at + 1
}

// All but the last digit, and then that one.
fn put_number(out: &mut [u8], at: usize, x: u64) -> usize
    requires { at + length (decimal x) ≤ length out.old }
    ensures { Stores out.old at (decimal x) out.new result }
{
    if x < 10 {
        put_byte(out, at, 48 + x as u8)
    } else {
        let p = put_number(out, at, x / 10);
        put_byte(out, p, 48 + (x % 10) as u8)
    }
}

// A number after a space.
pub fn put_field(out: &mut [u8], at: usize, x: u32) -> usize
    requires { at + 11 ≤ length out.old }
    ensures { Puts 11 out.old at (field_of x) out.new result }
{
    let p = put_byte(out, at, 32);
    put_number(out, p, x as u64)
}

// A value after a space: portions and diet portions.
pub fn put_value(out: &mut [u8], at: usize, portions: u16, diet: u16) -> usize
    requires { at + 12 ≤ length out.old }
    ensures { Puts 12 out.old at (entry_text (entry_with portions diet)) out.new result }
{
    let p = put_field(out, at, portions as u32);
    let q = put_byte(out, p, 47);
    put_number(out, q, diet as u64)
}

// The line of record k: its number, and 0 or the refusal.
pub fn put_line(out: &mut [u8], at: usize, k: u64, refusal: u8) -> usize
    requires { at + 32 ≤ length out.old }
    ensures { Puts 32 out.old at (line_of k refusal) out.new result }
{
    let p = put_number(out, at, k);
    let q = put_field(out, p, refusal as u32);
    put_byte(out, q, 10)
}
