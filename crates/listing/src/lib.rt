// Reading a session: its header and all its steps, in words. First everything is tested, then written.
#![tactic(auto)]

ghost use Rattle.std.specs.Prelude.{◌≡◌, cond, [], ◌∷◌, ℕ, ◌+◌, ◌<◌, ◌≤◌, length, get_or, drop, eqb, IfOk};
ghost use Rattle.rules.specs.Sizes.{max_session};
ghost use Rattle.rules.specs.Bytes.{widths};
ghost use Rattle.rules.specs.Writing as rules;
ghost use Rattle.forms.specs.Slots.{step, operands, Known};
ghost use Rattle.forms.specs.Columns.{Ranged, Bounds};
ghost use Rattle.text.specs.Wrote.{Wrote};
ghost use Rattle.listing.specs.Meaning.{earned, PassedAs, step_at, from, Counts, Fits, Stored, outcome_of};

use forms::{Kind, LONGEST, Largest, SHORTEST, STEP_WORDS};
use refusals::{Refusal, Refused};

// Node count, sheet count and how many steps were read.
#[derive(Clone, Copy)]
pub struct Listed {
    pub nodes: u8,
    pub sheets: u16,
    pub steps: usize,
}

// ---- Tests

// A number where there is one, else 0. No branch goes by it.
fn only_if(there: bool, v: u32) -> u32
    ensures { result ≡ cond there v 0 }
{
    if there {
        return v;
    }
    0
}

// The second operand of the step of so many bytes at an offset, 0 where it has none.
fn second(session: &[u8], at: usize, size: usize) -> u32
    requires { (2 ≤ size) × (at + size ≤ length session.now) }
    ensures { result ≡ cond (eqb size 2) 0 (get_or session.now (at + 2) 0) }
{
    let there = size != SHORTEST;
    only_if(there, session[at + 1 + only_if(there, 1) as usize] as u32)
}

// Whether the step at an offset passes. A content passes as it is.
fn passed(session: &[u8], at: usize, l: Largest) -> Result<(), Refusal>
    requires { at < length session.now }
    ensures { (n m : ℕ) → Bounds n m l → PassedAs (earned n m (drop at session.now)) result }
{
    let kind = Kind::new(session[at] as u32).ok_or(Refusal::UnknownCommand)?;
    let size = kind.size();
    if session.len() - at < size {
        return Err(Refusal::CutShort);
    }
    if !l.fits(kind, session[at + 1] as u32, second(session, at, size)) {
        return Err(Refusal::OutOfRange);
    }
    Ok(())
}

// Tests the steps from an offset on, one by one, and counts them.
fn tested(session: &[u8], start: usize, nodes: u64, sheets: u64) -> Result<usize, Refused>
    requires { (start ≤ length session.now) × Ranged nodes sheets }
    ensures counts { Counts (from nodes sheets start session.now) result }
    ensures few { IfOk result (λ q. q ≤ length session.now) }
{
    let l = Largest::new(nodes, sheets);
    let mut at = start;
    let mut q: usize = 0;
    // Kept: an offset that goes on by the step's size, and which a refusal names.
    while at < session.len() {
        passed(session, at, l).map_err(|why| why.at(at))?;
        let kind = Kind {
            number: session[at] as u32,
        };
        at += kind.size();
        q += 1;
    }
    Ok(q)
}

// ---- Words

// A step's words.
fn put_words(steps: &mut [u32], i: usize, c: u32, x: u32, y: u32, z: u32) -> usize
    requires { i + 4 ≤ length steps.old }
    ensures { Wrote steps.old i (rules.words (step c x y z ∷ [])) 4 result steps.new }
{
    steps[i] = c;
    steps[i + 1] = x;
    steps[i + 2] = y;
    steps[i + 3] = z;
    i + STEP_WORDS
}

// The words of the step at an offset, which has all its bytes. As many bytes are read as the longest has, where there are so many.
fn put_step(steps: &mut [u32], i: usize, session: &[u8], at: usize) -> usize
    requires { (i + 4 ≤ length steps.old) × Known (get_or session.now at 0) × (at + (1 + widths (operands (get_or session.now at 0))) ≤ length session.now) }
    ensures { Wrote steps.old i (rules.words (step_at session.now at ∷ [])) 4 result steps.new }
{
    let c = session[at] as u32;
    let x = session[at + 1] as u32;
    let size = Kind { number: c }.size();
    if session.len() - at < LONGEST {
        return put_words(steps, i, c, x, second(session, at, size), 0);
    }
    let y = only_if(size != SHORTEST, session[at + 2] as u32);
    let v = u32::from_be_bytes([
        session[at + 3],
        session[at + 4],
        session[at + 5],
        session[at + 6],
    ]);
    put_words(steps, i, c, x, y, only_if(size == LONGEST, v))
}

// The words of the steps from an offset on, in room for them.
fn put_steps(steps: &mut [u32], session: &[u8], start: usize) -> usize
    requires { (start ≤ length session.now) × Fits start session.now (length steps.old) }
    ensures { Stored start session.now steps.old result steps.new }
{
    let mut at = start;
    let mut i: usize = 0;
    // Kept: as in `tested`. The size is asked for before the words are stored: behind them it costs 14 % of reading.
    while at < session.len() {
        let size = Kind {
            number: session[at] as u32,
        }
        .size();
        i = put_step(steps, i, session, at);
        at += size;
    }
    i
}

// ---- The call

// Reads a session's steps to the front of the room; or refuses and writes nothing.
pub fn read(session: &[u8], steps: &mut [u32]) -> Result<Listed, Refused>
    ensures steps_after { record { outcome = outcome_of result; room = steps.new } ≡ rules.read_call session.now steps.old }
    ensures small { IfOk result (λ l. l.steps ≤ max_session) }
{
    let header = wire::read_header(session).ok_or(Refusal::BadHeader.at(0))?;
    let start = 2 + header.sheets as usize;
    let count = tested(session, start, header.nodes as u64, header.sheets as u64)?;
    if steps.len() / STEP_WORDS < count {
        return Err(Refusal::NoRoom.at(count));
    }
    put_steps(steps, session, start);
    Ok(Listed {
        nodes: header.nodes,
        sheets: header.sheets,
        steps: count,
    })
}
