// Sets of numbers below 64 as words: k is a member where digit k is 1. A loop over `members` begins at the lowest. They are words and no type of their
// own, since a session's tables are lent as words.
#![tactic(auto)]

ghost use Rattle.std.specs.Prelude.{◌<◌, ◌≡◌, not, ◌&&◌, ◌||◌, eqb};
ghost use Rattle.rules.specs.Table.{any};
ghost use Rattle.sets.specs.Bit.{bit, low, Rest};

// The lowest member of a set that has one.
pub fn lowest(x: u64) -> usize
    ensures { result ≡ low x }
{
    u64::trailing_zeros(x) as usize
}

// The set without its lowest member.
pub fn rest(x: u64) -> u64
    requires { 0 < x }
    ensures { Rest x result }
{
    x & (x - 1)
}

pub fn has(x: u64, k: usize) -> bool
    requires { k < 64 }
    ensures { result ≡ bit x k }
{
    (x >> (k as u64)) % 2 == 1
}

pub fn with(x: u64, k: usize) -> u64
    requires { k < 64 }
    ensures { (j : _) → bit result j ≡ (bit x j || eqb j k) }
{
    x | (1u64 << (k as u64))
}

// With k, if g.
pub fn with_if(x: u64, k: usize, g: bool) -> u64
    requires { k < 64 }
    ensures { (j : _) → bit result j ≡ (bit x j || (g && eqb j k)) }
{
    if g { with(x, k) } else { x }
}

pub fn without(x: u64, k: usize) -> u64
    requires { k < 64 }
    ensures { (j : _) → bit result j ≡ (bit x j && not (eqb j k)) }
{
    x & !(1u64 << (k as u64))
}

pub fn both(x: u64, y: u64) -> u64
    ensures { (j : _) → bit result j ≡ (bit x j && bit y j) }
{
    x & y
}

pub fn either(x: u64, y: u64) -> u64
    ensures { (j : _) → bit result j ≡ (bit x j || bit y j) }
{
    x | y
}

pub fn minus(x: u64, y: u64) -> u64
    ensures { (j : _) → bit result j ≡ (bit x j && not (bit y j)) }
{
    x & !y
}

// The set has a member.
pub fn some(x: u64) -> bool
    ensures { result ≡ any 64 (bit x) }
{
    x != 0
}

// Two sets have one in common.
pub fn meet(x: u64, y: u64) -> bool
    ensures { result ≡ any 64 (λ u. bit x u && bit y u) }
{
    x & y != 0
}

// ---- The members, one by one

// The members that a loop has still to come to.
#[derive(Drop)]
pub struct Walk {
    pub left: u64,
}

// A set's members, from the lowest on.
pub fn members(x: u64) -> Walk
    ensures { result.left ≡ x }
{
    Walk { left: x }
}

impl Iterator for Walk {
    ghost use Rattle.std.specs.Iterator.{at_most};
    ghost use Rattle.sets.specs.Walk.{NextMember};

    type Item = usize;

    ghost next_gives = { NextMember };

    ghost remaining = { λ s. at_most s.left };

    fn next(&mut self) -> Option<usize> {
        if self.left == 0 {
            return None;
        }
        let k = lowest(self.left);
        self.left = rest(self.left);
        Some(k)
    }
}
