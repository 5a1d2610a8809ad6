// The report's lines. A writer stores them in a lent buffer from `at` on, and moves `at` behind each. A method asks for room as for the longest
// numbers of its types: a u32 has at most 10 figures.
#![tactic(auto)]

ghost use Rattle.std.specs.Prelude.{◌≡◌, [], ◌∷◌, ◌+◌, ◌*◌, ◌<◌, ◌≤◌, length, take};
ghost use Rattle.rules.specs.Report as rules;
ghost use Rattle.text.specs.Wrote.{Wrote};
ghost use Rattle.text.specs.Writes.{Writes};
ghost use Rattle.text.specs.Lines.{last_two, sheets_of, tally_of, opening, three};

// Where text goes: a lent buffer, and the place in it.
#[derive(Drop)]
pub struct Writer<'a> {
    pub buf: &'a mut [u8],
    pub at: usize,
}

impl<'a> Writer<'a> {
    // The bytes before its place.
    pub fn written(&self) -> &[u8]
        requires { self.now.at ≤ length self.now.buf.now }
        ensures { result.now ≡ take self.now.at self.now.buf.now }
    {
        &self.buf[..self.at]
    }

    // One byte.
    pub fn put(&mut self, b: u8)
        requires { self.old.at < length self.old.buf.now }
        ensures { Writes self.old self.new (b ∷ []) 1 }
    {
        self.buf[self.at] = b;
        self.at += 1;
    }

    // The last two figures of a number.
    fn last_two(&mut self, n: u32)
        requires { self.old.at + 2 ≤ length self.old.buf.now }
        ensures { Writes self.old self.new (last_two n) 2 }
    {
        self.put(48 + ((n / 10 % 10) as u8));
        self.put(48 + ((n % 10) as u8));
    }

    // A number below 100: nearly all are.
    fn short(&mut self, n: u32)
        requires { (n < 100) × (self.old.at + length (rules.decimal n) ≤ length self.old.buf.now) }
        ensures { Writes self.old self.new (rules.decimal n) 10 }
    {
        if n < 10 {
            return self.put(48 + ((n % 10) as u8));
        }
        self.last_two(n);
    }

    // A blank and a number. The test stands here too, since a function that calls itself is not inlined.
    pub fn field(&mut self, n: u32)
        requires { self.old.at + 11 ≤ length self.old.buf.now }
        ensures { Writes self.old self.new (rules.field n) 11 }
    {
        self.put(b' ');
        if n < 100 {
            return self.short(n);
        }
        self.at = decimal(self.buf, self.at, n);
    }

    // A letter and two fields: how lines begin.
    fn open_line(&mut self, letter: u8, a: u32, b: u32)
        requires { self.old.at + 23 ≤ length self.old.buf.now }
        ensures { Writes self.old self.new (opening letter a b) 23 }
    {
        self.put(letter);
        self.field(a);
        self.field(b);
    }

    // A line with three fields.
    fn three_line(&mut self, letter: u8, a: u32, b: u32, c: u32)
        requires { self.old.at + 35 ≤ length self.old.buf.now }
        ensures { Writes self.old self.new (three letter a b c) 35 }
    {
        self.open_line(letter, a, b);
        self.field(c);
        self.put(b'\n');
    }

    // P t r o
    pub fn place_line(&mut self, save: u8, runs: u8, outcome: u8)
        requires { self.old.at + 26 ≤ length self.old.buf.now }
        ensures { Writes self.old self.new (rules.place_line (record { save = save; runs = runs; outcome = outcome })) 26 }
    {
        self.open_line(b'P', save as u32, runs as u32);
        self.put(b' ');
        self.put(outcome);
        self.put(b'\n');
    }

    // R p c
    pub fn refusal_line(&mut self, p: u32, c: u8)
        requires { self.old.at + 24 ≤ length self.old.buf.now }
        ensures { Writes self.old self.new (rules.refusal_line p c) 24 }
    {
        self.open_line(b'R', p, c as u32);
        self.put(b'\n');
    }

    // The O lines of `m` sheets. `w` has their contents and, behind these, their WCTs.
    pub fn sheet_lines(&mut self, w: &[u32], m: usize)
        requires { (m < 65536) × (2 * m ≤ length w.now) × (self.old.at + 35 * m ≤ length self.old.buf.now) }
        ensures { Writes self.old self.new (rules.sheet_lines (sheets_of m w.now) m) (35 * m) }
    {
        for k in 0..m {
            let i = m + k;
            self.three_line(b'O', k as u32, w[k], w[i]);
        }
    }

    // T a f s. Three numbers, and not a `Tally`: neither crate uses the other.
    pub fn tally_line(&mut self, accepted: u32, first: u32, second: u32)
        requires { self.old.at + 35 ≤ length self.old.buf.now }
        ensures { Writes self.old self.new (rules.tally_line (tally_of accepted first second)) 35 }
    {
        self.three_line(b'T', accepted, first, second);
    }
}

// How many bytes a field has: a blank and the figures.
pub fn field_size(n: u32) -> usize
    ensures size { result ≡ length (rules.field n) }
    ensures small { result ≤ 11 }
{
    if 10 <= n {
        return 1 + field_size(n / 10);
    }
    2
}

// A number in decimal figures, without leading zeros. Kept: it takes the buffer and the place, since a writer that is lent to a function that
// calls itself stays in memory, and each byte is then stored with the place.
fn decimal(buf: &mut [u8], at: usize, n: u32) -> usize
    requires { at + length (rules.decimal n) ≤ length buf.old }
    ensures { Wrote buf.old at (rules.decimal n) 10 result buf.new }
{
    if n < 100 {
        let mut w = Writer { buf, at };
        w.short(n);
        return w.at;
    }
    let e = decimal(buf, at, n / 100);
    let mut w = Writer { buf, at: e };
    w.last_two(n);
    w.at
}
