// A session's state: tables that it is lent, which the commands change in place. They are as long as its number of sheets, m, asks, or longer.
#![tactic(auto)]

ghost use Rattle.std.specs.Prelude.{◌+◌, ◌*◌, ◌/◌, ◌%◌, ◌≤◌, ◌<◌, ◌≡◌, ◌||◌, eqb, length, get_or, set};
ghost use Rattle.refusals.specs.Numbers.{number_of};
ghost use Rattle.sets.specs.Bit.{bit, word, in_row, stride, blocks};
ghost use Rattle.state.specs.Slices.{slices};
ghost use Rattle.state.specs.View.{out_of_phase, rows, tables};
ghost use Rattle.state.specs.Asked.{Indexed, InRun};
ghost use Rattle.state.specs.Stored.{Stored};
ghost use Rattle.state.specs.Starts.{Blank, Starts, Holds};

use refusals::Refusal;

// The phases of a save. They stay numbers: the table of bytes that a session is lent has them.
pub const UNUSED: u8 = 0;

pub const FIRST_RUN: u8 = 1;

pub const SUBMITTED: u8 = 2;

pub const SECOND_RUN: u8 = 3;

pub const COMMITTED: u8 = 4;

pub const DROPPED: u8 = 5;

// A session's tables and its number of sheets. They are lent, so that a caller that shows them still has them when the session ends.
#[derive(Drop)]
pub struct Session<'a> {
    // Phases, failed marks and runs by save, the node count, then the save at each place of the order.
    pub bytes: &'a mut [u8],
    // Sets of sheets, one to a row of words: word j of a row stands in block j and has the sheets from 64 * j on.
    pub sets: &'a mut [u64],
    // The numbers of places, then sets of saves: those placed before each save, all that are placed, and by sheet the queue and the X in it.
    pub queues: &'a mut [u64],
    // A row of m for each save: the contents of its copies.
    pub value: &'a mut [u32],
    // A row of m for each save: the WCTs seen.
    pub seen: &'a mut [u16],
    // The sheets' contents, then their WCTs.
    pub sheets: &'a mut [u32],
    pub m: usize,
}

impl<'a> Session<'a> {
    // At most so many of each in one session.
    pub const NODES: usize = limits::MAX_NODES;

    pub const SHEETS: usize = limits::MAX_SHEETS;

    pub const SAVES: usize = limits::MAX_SAVES;

    // Save numbers are below this, as sheet numbers are below the header's count.
    pub const SAVE_NUMBERS: u8 = Session::SAVES as u8;

    // Places that the order has room for: a place takes three commands, of two bytes at least, and each save's first one less.
    pub const PLACES: usize = 2752;

    // The bytes: by save, then the node count and the order.
    pub const PHASE: usize = 0;

    pub const FAILED: usize = Session::PHASE + Session::SAVES;

    pub const RUNS: usize = Session::FAILED + Session::SAVES;

    pub const NODE_COUNT: usize = Session::RUNS + Session::SAVES;

    pub const ORDER: usize = Session::NODE_COUNT + 1;

    pub const BYTES: usize = Session::ORDER + Session::PLACES;

    // The rows of sets of sheets: by save those copied, written, claimed, claimed X, with an entry; by node those owned.
    pub const COPIED: usize = 0;

    pub const WRITTEN: usize = Session::COPIED + Session::SAVES;

    pub const CLAIM: usize = Session::WRITTEN + Session::SAVES;

    pub const CLAIM_X: usize = Session::CLAIM + Session::SAVES;

    pub const HELD: usize = Session::CLAIM_X + Session::SAVES;

    pub const OWNED: usize = Session::HELD + Session::SAVES;

    const ROWS: usize = Session::OWNED + Session::NODES;

    // From one block of 64 sheets to the next: a power of two, so that a row's word is found by shifts.
    pub const STRIDE: usize = 256;

    pub const SETS: usize = Session::STRIDE * ((Session::SHEETS + 63) / 64 - 1) + Session::ROWS;

    // The numbers of places: each save's last one, how many each node has taken, how many there are.
    pub const PLACE: usize = 0;

    pub const TAKEN: usize = Session::PLACE + Session::SAVES;

    pub const PLACED: usize = Session::TAKEN + Session::NODES;

    // The sets of saves: those placed before each save, all that are placed, and two for each sheet: its queue, and the X in it.
    pub const BEFORE: usize = Session::PLACED + 1;

    pub const JOINED: usize = Session::BEFORE + Session::SAVES;

    pub const QUEUE: usize = Session::JOINED + 1;

    pub const QUEUES: usize = Session::QUEUE + 2 * Session::SHEETS;

    // A row for each save with a column for each sheet.
    pub const COPIES: usize = Session::SAVES * Session::SHEETS;

    // The rows of `sheets`.
    pub const CONTENT: usize = 0;

    pub const WCT: usize = 1;

    pub const STORE: usize = 2 * Session::SHEETS;
}

// Why a save fails at a sheet, by the numbers that a host is told.
#[derive(Clone, Copy, Debug, PartialEq, Eq)]
pub enum Rule {
    XGranted = 1,
    XWaiting = 2,
    CounterBehind = 3,
}

#[derive(Clone, Copy, Debug, PartialEq, Eq)]
pub struct Cause {
    pub sheet: usize,
    pub rule: Rule,
}

// What a node finds a save at its TAKE: where it is invalid, the first cause that the node met. Document 01 names a verdict as an enum of its own.
#[derive(Clone, Copy, Debug, PartialEq, Eq)]
pub enum Verdict {
    Valid,
    Invalid(Cause),
}

// `CommitsLater` is a DECIDE of a save that has run again, `Recommits` a later run's SUBMIT that is accepted and commits: the tally tells them.
#[derive(Clone, Copy, Debug, PartialEq, Eq)]
pub enum Answer {
    Accepted,
    Content(u32),
    Took(u8, Verdict),
    Commits,
    CommitsLater,
    SecondRun,
    Recommits,
}

// A save of phase p is in its first run or a later one.
pub fn running(p: u8) -> bool
    ensures { result ≡ (eqb p 1 || eqb p 3) }
{
    if p == FIRST_RUN {
        return true;
    }
    p == SECOND_RUN
}

// What a save of phase p is refused with by a command that this phase does not allow.
#[tactic(auto, unfolding(crate::specs::View::out_of_phase))]
pub fn out_of_phase(p: u8) -> Refusal
    ensures { number_of result ≡ out_of_phase p }
{
    if p == UNUSED {
        return Refusal::NotBegun;
    }
    if COMMITTED <= p {
        return Refusal::Finished;
    }
    Refusal::WrongPhase
}

// The row of save t in every table, or that there is no such save.
pub fn save_index(t: u8) -> Result<usize, Refusal>
    ensures { Indexed t result }
{
    if Session::SAVE_NUMBERS <= t {
        return Err(Refusal::OutOfRange);
    }
    Ok(t as usize)
}

// A save of phase p is in a run, or refused.
pub fn in_run(p: u8) -> Result<(), Refusal>
    ensures { InRun p result }
{
    if running(p) {
        return Ok(());
    }
    Err(out_of_phase(p))
}

// ---- Sets of sheets. What uses one table is lent that one and not the session: its type then says that the others stay.

// How many blocks m sheets have.
pub fn blocks(m: usize) -> usize
    requires { m < 65536 }
    ensures { result ≡ blocks m }
{
    (m + 63) / 64
}

// Word j of row i.
pub fn word(s: &[u64], i: usize, j: usize) -> u64
    requires { (i < rows) × (i + stride * j < length s.now) }
    ensures { result ≡ word s.now i j }
{
    s[i + Session::STRIDE * j]
}

// Word j of row i becomes v.
pub fn set_word(s: &mut [u64], i: usize, j: usize, v: u64)
    requires { (i < rows) × (i + stride * j < length s.old) }
    ensures { s.new ≡ set s.old (i + stride * j) v }
{
    s[i + Session::STRIDE * j] = v;
}

// Sheet k's block. With slices for one block the compiler knows it, and all that goes by it is gone: READ and WRITE are an eighth faster.
fn block(s: &[u64], k: usize) -> usize
    requires { stride * (k / 64) < length s.now }
    ensures { result ≡ k / 64 }
{
    if s.len() <= Session::STRIDE {
        return 0;
    }
    k / 64
}

// Sheet k is in the set of row i.
#[tactic(auto, unfolding(sets::specs::Bit::in_row))]
pub fn member(s: &[u64], i: usize, k: usize) -> bool
    requires { (i < rows) × (i + stride * (k / 64) < length s.now) }
    ensures { result ≡ in_row s.now i k }
{
    let j = block(s, k);
    sets::has(word(s, i, j), k % 64)
}

// Sheet k joins the set of row i.
pub fn insert(s: &mut [u64], i: usize, k: usize)
    requires { (i < rows) × (i + stride * (k / 64) < length s.old) }
    ensures { Stored (i + stride * (k / 64)) (λ c. bit (word s.old i (k / 64)) c || eqb c (k % 64)) s.old s.new }
{
    let j = block(s, k);
    let x = word(s, i, j);
    set_word(s, i, j, sets::with(x, k % 64));
}

// ---- Rows of m

// Row x, sheet k, of a table of numbers: a save's row of `value`, or one of the two of `w`.
pub fn cell(l: &[u32], m: usize, x: usize, k: usize) -> u32
    requires { (x * m + m ≤ length l.now) × (k < m) }
    ensures { result ≡ get_or l.now (x * m + k) 0 }
{
    l[x * m + k]
}

// Row x, sheet k, of a table of numbers becomes v.
pub fn set_cell(l: &mut [u32], m: usize, x: usize, k: usize, v: u32)
    requires { (x * m + m ≤ length l.old) × (k < m) }
    ensures { l.new ≡ set l.old (x * m + k) v }
{
    l[x * m + k] = v;
}

// ---- The start

impl<'a> Session<'a> {
    // New nodes with these sheets, each with its owner, and no save used: what tables of zeros become.
    pub fn fresh(
        bytes: &'a mut [u8],
        sets: &'a mut [u64],
        queues: &'a mut [u64],
        value: &'a mut [u32],
        seen: &'a mut [u16],
        sheets: &'a mut [u32],
        nodes: u8,
        owners: &[u8],
    ) -> Session<'a>
        requires { Blank (length owners.now) (slices bytes.old sets.old queues.old value.old seen.old sheets.old) × ((k : _) → get_or owners.now k 0 < 8) }
        ensures same_references { Holds result bytes.entry sets.entry queues.entry value.entry seen.entry sheets.entry }
        ensures starts { (result.m ≡ length owners.now) × Starts nodes owners.now (tables result) }
        ensures long { (length result.bytes.now ≡ length bytes.old) × (length result.sets.now ≡ length sets.old) }
        ensures untouched { (result.queues.now ≡ queues.old) × (result.value.now ≡ value.old) × (result.seen.now ≡ seen.old) × (result.sheets.now ≡ sheets.old) }
    {
        bytes[Session::NODE_COUNT] = nodes;
        let m = owners.len();
        for k in 0..m {
            insert(sets, Session::OWNED + owners[k] as usize, k);
        }
        Session {
            bytes,
            sets,
            queues,
            value,
            seen,
            sheets,
            m,
        }
    }
}
