// A line of the table: a first letter, which names a call, and the call's numbers. Other text is for the reader alone.
ghost use Rattle.std.specs.Prelude.{◌≤◌};

// What is read of a line so far: its letter, its numbers, how many of them have ended, and whether the next has begun.
#[derive(Clone, Copy)]
pub struct Line {
    pub letter: Option<u8>,
    pub numbers: [u8; 128],
    count: usize,
    is_inside: bool,
    ghost few: { count ≤ 128 },
}

impl Line {
    // Nothing is read yet.
    pub fn new() -> Line {
        Line {
            letter: None,
            numbers: [0; 128],
            count: 0,
            is_inside: false,
        }
    }

    // Takes one more character. There are at most 128 numbers, each below 240; one after them is the first again, so
    // that any text is a table.
    pub fn feed(&mut self, c: u8) {
        let at = self.count % 128;
        if c.is_ascii_digit() {
            self.numbers[at] = self.numbers[at] % 24 * 10 + (c - b'0');
            self.is_inside = true;
            return;
        }
        if self.is_inside {
            self.count = at + 1;
            self.is_inside = false;
        }
        if self.letter.is_none() && c != 0 {
            self.letter = Some(c);
        }
    }

    // The numbers after the first `skipped`.
    pub fn after(&self, skipped: usize) -> &[u8] {
        self.numbers.get(skipped..self.count).unwrap_or(&[])
    }
}
