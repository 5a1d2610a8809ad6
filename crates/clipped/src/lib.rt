// Text into a lent room that may be too short: what does not fit is not written, and the place behind the text is counted all the same. So a
// caller learns how long a text is by lending no room, and then lends what it has.
//
// A room that is lent to a call lies in memory, where each byte that is stored costs a step for the place too: hence the hints.
#![tactic(auto)]

ghost use Rattle.std.specs.Prelude.{[], ◌∷◌, ◌+◌, ◌<◌, ◌≤◌, length};
ghost use Rattle.rules.specs.Report as rules;
ghost use Rattle.rules.specs.Showing.{lettered, opening};
ghost use Rattle.text.specs.Wrote.{Wrote};
ghost use Rattle.clipped.specs.Sizes.{most};
ghost use Rattle.clipped.specs.Puts.{Puts};

use text::Writer;

// Where text goes as far as the bytes reach, and the place in it.
#[derive(Drop)]
pub struct Room<'a> {
    pub bytes: &'a mut [u8],
    pub at: usize,
}

impl<'a> Room<'a> {
    // One byte.
    pub fn put(&mut self, b: u8)
        requires { self.old.at < most }
        ensures { Puts self.old self.new (b ∷ []) 1 }
    {
        if self.at < self.bytes.len() {
            self.bytes[self.at] = b;
        }
        self.at += 1;
    }

    // A text.
    pub fn append(&mut self, text: &[u8])
        requires { self.old.at + length text.now ≤ most }
        ensures { Puts self.old self.new text.now (length text.now) }
    {
        let fits = self.bytes.len().saturating_sub(self.at);
        for i in 0..text.len().min(fits) {
            self.bytes[self.at + i] = text[i];
        }
        self.at += text.len();
    }

    // A blank and a number: straight into the room, or aside where they might not fit.
    #[inline(always)]
    pub fn field(&mut self, n: u32)
        requires { self.old.at + 11 ≤ most }
        ensures { Puts self.old self.new (rules.field n) 11 }
    {
        if self.at + 11 <= self.bytes.len() {
            let mut w = Writer {
                buf: self.bytes,
                at: self.at,
            };
            w.field(n);
            self.at = w.at;
            return;
        }
        self.at = field_aside(self.bytes, self.at, n);
    }

    // A blank and a letter.
    pub fn letter(&mut self, c: u8)
        requires { self.old.at + 2 ≤ most }
        ensures { Puts self.old self.new (lettered c) 2 }
    {
        self.put(b' ');
        self.put(c);
    }

    // How lines begin: a letter and two fields.
    #[inline(always)]
    pub fn line_start(&mut self, c: u8, a: u32, b: u32)
        requires { self.old.at + 23 ≤ most }
        ensures { Puts self.old self.new (opening c a b) 23 }
    {
        self.put(c);
        self.field(a);
        self.field(b);
    }
}

// A blank and a number, written aside and copied; past the room's end they are only counted. Kept: it takes the buffer and the place, as a room that is
// lent to what is not inlined stays in memory.
#[inline(never)]
fn field_aside(bytes: &mut [u8], at: usize, n: u32) -> usize
    requires { at + 11 ≤ most }
    ensures { Wrote bytes.old at (rules.field n) 11 result bytes.new }
{
    if bytes.len() <= at {
        return at + text::field_size(n);
    }
    let mut figures = [0u8; 11];
    let mut w = Writer {
        buf: &mut figures,
        at: 0,
    };
    w.field(n);
    let mut room = Room { bytes, at };
    room.append(w.written());
    room.at
}
