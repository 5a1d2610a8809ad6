// A state's lines. The P lines come from rows: the order of places is a list of rows, each with save, runs and outcome, by last place.
#![tactic(auto)]

ghost use Rattle.std.specs.Prelude.{◌≡◌, ◌+◌, ◌*◌, ◌<◌, ◌≤◌, [], map, length, take};
ghost use Rattle.rules.specs.Report as rules;
ghost use Rattle.state.specs.Slices.{slices};
ghost use Rattle.state.specs.View.{as_phase, placed, shown, ORDER};
ghost use Rattle.state.specs.Fit.{Table};
ghost use Rattle.text.specs.Writes.{Writes};
ghost use Rattle.tally.specs.Figures.{figures};
ghost use Rattle.rows.specs.Rows.{row_of, lines_of, row_in, Ordered, Small, Lined};

use state::Session;
use tally::Tally;
use text::Writer;

// A state's lines have at most so many bytes: a P line 26, an O line 35, the T line 35.
pub const MOST_LINES: usize = 26 * Session::SAVES + 35 * Session::SHEETS + 35;

// A last place of the order: its save, the runs entered, the outcome's letter.
#[derive(Clone, Copy)]
pub struct Row {
    pub save: u8,
    pub runs: u8,
    pub outcome: u8,
}

// The rows' lines.
pub fn place_lines(w: &mut Writer, rows: &[Row])
    requires { w.old.at + 26 * length rows.now ≤ length w.old.buf.now }
    ensures { Writes w.old w.new (lines_of rows.now) (26 * length rows.now) }
{
    for r in rows {
        w.place_line(r.save, r.runs, r.outcome);
    }
}

// A phase's letter: C committed, D dropped, U neither yet. It is text, and so a byte.
fn letter(phase: u8) -> u8
    ensures { result ≡ rules.letter (as_phase phase) }
{
    match phase {
        0..state::COMMITTED => b'U',
        state::COMMITTED => b'C',
        _ => b'D',
    }
}

// The saves by last place, into a lent line: how many they are.
pub fn line_of(line: &mut [u8], x: &Session) -> usize
    requires { Ordered x.now.bytes.now x.now.queues.now × (32 ≤ length line.old) }
    ensures { Lined x.now.bytes.now x.now.queues.now (placed x.now.queues.now) line.new result }
{
    let placed = x.queues[Session::PLACED] as usize;
    let mut n: usize = 0;
    for p in 0..placed {
        let t = x.bytes[Session::ORDER + p];
        let last = x.queues[Session::PLACE + t as usize] as usize;
        if last == p {
            line[n] = t;
            n += 1;
        }
    }
    n
}

// The rows of the saves in line.
fn rows_of(b: &[u8], line: &[u8]) -> [Row; Session::SAVES]
    requires { (ORDER ≤ length b.now) × (length line.now ≤ 32) × Small line.now (length line.now) }
    ensures { map row_of (take (length line.now) result) ≡ map (row_in b.now) line.now }
{
    let none = Row {
        save: 0,
        runs: 0,
        outcome: 0,
    };
    let mut rows = [none; Session::SAVES];
    for (i, &t) in line.iter().enumerate() {
        let k = t as usize;
        rows[i] = Row {
            save: t,
            runs: b[Session::RUNS + k],
            outcome: letter(b[Session::PHASE + k]),
        };
    }
    rows
}

// All lines of a state: the P, O and T lines. 867 is 26 * 32 + 35, for the P lines and the T line. The sets, the copies' contents and the WCTs seen,
// which no line shows, are given as [].
pub fn state_lines(w: &mut Writer, x: &Session, t: Tally)
    requires { Ordered x.now.bytes.now x.now.queues.now × (x.now.m < 65536) × Table 2 x.now.m x.now.sheets.now
        × (w.old.at + 867 + 35 * x.now.m ≤ length w.old.buf.now) }
    ensures { Writes w.old w.new
        (rules.state_lines (shown x.now.m (slices x.now.bytes.now [] x.now.queues.now [] [] x.now.sheets.now) (figures t)))
        (867 + 35 * x.now.m) }
{
    let mut line = [0u8; Session::SAVES];
    let n = line_of(&mut line, x);
    let rows = rows_of(x.bytes, &line[..n]);
    place_lines(w, &rows[..n]);
    w.sheet_lines(x.sheets, x.m);
    w.tally_line(t.accepted, t.first, t.second);
}
