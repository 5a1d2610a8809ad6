// Writing a session: a header and a list of steps, in words, as bytes. First everything is tested, then written.
#![tactic(auto)]

ghost use Rattle.std.specs.Prelude.{◌≡◌, List, [], ◌∷◌, ℕ, ◌+◌, ◌<◌, ◌≤◌, length, get_or, IfOk};
ghost use Rattle.rules.specs.Sizes.{max_session};
ghost use Rattle.rules.specs.Bytes.{widths};
ghost use Rattle.rules.specs.Steps.{refuse};
ghost use Rattle.rules.specs.Writing as rules;
ghost use Rattle.refusals.specs.Numbers.{number_of};
ghost use Rattle.wire.specs.Refusing.{outcome_of};
ghost use Rattle.forms.specs.Slots.{step, operands, Known};
ghost use Rattle.forms.specs.Columns.{Ranged, Bounds};
ghost use Rattle.text.specs.Wrote.{Wrote};
ghost use Rattle.text.specs.Writes.{Writes};
ghost use Rattle.writing.specs.Meaning.{heading_of, PassedAs, Tested, step_in, steps_of, session_of, Passes};
ghost use Rattle.writing.specs.Ahead.{Ahead, spread};

use forms::{Kind, LONGEST, Largest, SHORTEST, STEP_WORDS};
use limits::{MAX_NODES, MAX_SESSION, MAX_SHEETS};
use refusals::{Refusal, Refused};
use text::Writer;

// How many steps there are and how many bytes they have.
#[derive(Clone, Copy)]
struct Sizes {
    steps: usize,
    bytes: usize,
}

// ---- Tests

// Whether a header is in range and has an owner for each sheet.
fn heading_fits(nodes: usize, sheets: usize, owners: &[u8]) -> bool
    ensures { result ≡ rules.heading_fits (heading_of nodes sheets owners.now) }
{
    owners.len() == sheets
        && (1..=MAX_NODES).contains(&nodes)
        && (1..=MAX_SHEETS).contains(&sheets)
        && wire::owners_below(owners, nodes as u8)
}

// A step's command, where the step passes.
fn passed(l: Largest, c: u32, x: u32, y: u32, z: u32) -> Result<Kind, Refusal>
    ensures { (n m : ℕ) → Bounds n m l → PassedAs c (rules.check_step n m (step c x y z)) result }
{
    let kind = Kind::new(c).ok_or(Refusal::UnknownCommand)?;
    if !l.fits(kind, x, y) || kind.largest_third() < z {
        return Err(Refusal::OutOfRange);
    }
    Ok(kind)
}

// The refusal of a step that is cut short.
fn cut_refusal(c: u32) -> Refusal
    ensures { (n m : ℕ) (vs : List ℕ) → length vs < 3 → rules.check_step n m (record { number = c; operands = vs }) ≡ refuse (number_of result) }
{
    match Kind::new(c) {
        Some(_) => Refusal::OutOfRange,
        None => Refusal::UnknownCommand,
    }
}

// Tests the steps one by one and counts their bytes, up to one more than a session may have, which stands for all above.
fn tested(nodes: u64, sheets: u64, steps: &[u32]) -> Result<Sizes, Refused>
    requires { Ranged nodes sheets }
    ensures { Tested nodes sheets (rules.instructions steps.now) result }
{
    let l = Largest::new(nodes, sheets);
    let count = steps.len() / STEP_WORDS;
    let mut bytes: usize = 0;
    for q in 0..count {
        let i = STEP_WORDS * q;
        let step = passed(l, steps[i], steps[i + 1], steps[i + 2], steps[i + 3]);
        bytes += step.map_err(|why| why.at(q))?.size();
    }
    let i = STEP_WORDS * count;
    if i < steps.len() {
        return Err(cut_refusal(steps[i]).at(count));
    }
    Ok(Sizes {
        steps: count,
        bytes: bytes.min(MAX_SESSION + 1),
    })
}

// ---- Bytes

// A content, most significant byte first.
fn put_content(out: &mut Writer, v: u32)
    requires { out.old.at + 4 ≤ length out.old.buf.now }
    ensures { Writes out.old out.new (rules.in_bytes 4 v) 4 }
{
    let end = out.at + 4;
    out.buf[out.at..end].copy_from_slice(&v.to_be_bytes());
    out.at = end;
}

// A step in as many bytes as the longest has.
fn put_longest(out: &mut Writer, c: u32, x: u32, y: u32, z: u32)
    requires { out.old.at + 7 ≤ length out.old.buf.now }
    ensures { Writes out.old out.new (spread c x y z) 7 }
{
    out.put((c % 256) as u8);
    out.put((x % 256) as u8);
    out.put((y % 256) as u8);
    put_content(out, z);
}

// A step without a content, in its own bytes.
fn put_own(out: &mut Writer, kind: Kind, x: u32, y: u32)
    requires { (1 + widths (operands kind.number) < 7) × (out.old.at + (1 + widths (operands kind.number)) ≤ length out.old.buf.now) }
    ensures { (z : ℕ) → Writes out.old out.new (rules.step_bytes (step kind.number x y z)) 7 }
{
    out.put((kind.number % 256) as u8);
    out.put((x % 256) as u8);
    if kind.size() != SHORTEST {
        out.put((y % 256) as u8);
    }
}

// A step in a buffer that ends with the session: the bytes behind it are written over by the next. Near the end there is no room for them.
fn put_step(out: &mut Writer, steps: &[u32], i: usize)
    requires { (i + 4 ≤ length steps.now) × Known (get_or steps.now i 0) × (out.old.at + length (rules.step_bytes (step_in steps.now i)) ≤ length out.old.buf.now) }
    ensures { Ahead out.old out.new (rules.step_bytes (step_in steps.now i)) }
{
    let c = steps[i];
    let x = steps[i + 1];
    let y = steps[i + 2];
    let kind = Kind { number: c };
    if LONGEST <= out.buf.len() - out.at {
        let end = out.at + kind.size();
        put_longest(out, c, x, y, steps[i + 3]);
        out.at = end;
        return;
    }
    put_own(out, kind, x, y);
}

// Owners, a byte each.
fn put_owners(out: &mut Writer, owners: &[u8])
    requires { out.old.at + length owners.now ≤ length out.old.buf.now }
    ensures { Writes out.old out.new owners.now (length owners.now) }
{
    for owner in owners {
        out.put(*owner);
    }
}

// Steps that pass, to the end of the buffer.
fn put_steps(out: &mut Writer, steps: &[u32])
    requires { Passes steps.now × (out.old.at + length (steps_of steps.now) ≡ length out.old.buf.now) }
    ensures { Writes out.old out.new (steps_of steps.now) (length (steps_of steps.now)) }
{
    for q in 0..steps.len() / STEP_WORDS {
        put_step(out, steps, STEP_WORDS * q);
    }
}

// A session, in a buffer of its size.
fn put_session(
    session: &mut [u8],
    nodes: usize,
    sheets: usize,
    owners: &[u8],
    steps: &[u32],
) -> usize
    requires { (nodes < 256) × (sheets < 256) × Passes steps.now × (length (session_of nodes sheets owners.now steps.now) ≡ length session.old) }
    ensures { Wrote session.old 0 (session_of nodes sheets owners.now steps.now)
        (length (session_of nodes sheets owners.now steps.now)) result session.new }
{
    let mut out = Writer {
        buf: session,
        at: 0,
    };
    out.put((nodes % 256) as u8);
    out.put((sheets % 256) as u8);
    put_owners(&mut out, owners);
    put_steps(&mut out, steps);
    out.at
}

// ---- The call

// Writes a session to the front of the room: how many bytes it has; or refuses and writes nothing.
pub fn write(
    nodes: usize,
    sheets: usize,
    owners: &[u8],
    steps: &[u32],
    session: &mut [u8],
) -> Result<usize, Refused>
    ensures session_after { record { outcome = outcome_of result; room = session.new }
        ≡ rules.write_call (heading_of nodes sheets owners.now) (rules.instructions steps.now) session.old }
    ensures small { IfOk result (λ n. n ≤ max_session) }
{
    if !heading_fits(nodes, sheets, owners) {
        return Err(Refusal::BadHeader.at(0));
    }
    let sizes = tested(nodes as u64, sheets as u64, steps)?;
    let size = 2 + sheets + sizes.bytes;
    if MAX_SESSION < size {
        return Err(Refusal::BadHeader.at(sizes.steps));
    }
    if session.len() < size {
        return Err(Refusal::NoRoom.at(size));
    }
    Ok(put_session(&mut session[..size], nodes, sheets, owners, steps))
}
