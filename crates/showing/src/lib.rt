// The state as text: the report's lines, then the saves, the order, the nodes, claims and own copies, the queues.
#![tactic(auto)]

ghost use Rattle.std.specs.Prelude.{◌≡◌, [], ◌+◌, ◌*◌, ◌<◌, ◌≤◌, length, get_or, eqb};
ghost use Rattle.rules.specs.Sizes.{max_sheets};
ghost use Rattle.rules.specs.Showing as rules;
ghost use Rattle.rules.specs.Report.{state_lines};
ghost use Rattle.text.specs.Wrote.{Wrote};
ghost use Rattle.clipped.specs.Sizes.{most};
ghost use Rattle.clipped.specs.Puts.{Puts};
ghost use Rattle.state.specs.Slices.{slices};
ghost use Rattle.state.specs.View.{as_phase, set?, part, placed, place_in, shown, shown_by, FAILED, ORDER, TAKEN, QUEUE};
ghost use Rattle.state.specs.Fit.{most_places, Table};
ghost use Rattle.tally.specs.Figures.{figures};
ghost use Rattle.rows.specs.Rows.{Ordered};
ghost use Rattle.showing.specs.Shows.{Marked, Numbered, numbered_by, unstored, wide_run, Shows, text_room};

use clipped::Room;
use state::Session;
use tally::Tally;
use text::Writer;

// ---- S t p r f w q

// A phase's letter.
fn phase_letter(p: u8) -> u8
    ensures { result ≡ rules.phase_letter (as_phase p) }
{
    match p {
        state::UNUSED => b'-',
        state::FIRST_RUN => b'F',
        state::SUBMITTED => b'S',
        state::SECOND_RUN => b'L',
        state::COMMITTED => b'C',
        _ => b'D',
    }
}

// S t p r
fn save_head(room: &mut Room, t: usize, p: u8, r: u8)
    requires { (t < 32) × (room.old.at + 25 ≤ most) }
    ensures { Puts room.old room.new (rules.save_head t (as_phase p) r) 25 }
{
    room.put(b'S');
    room.field(t as u32);
    room.letter(phase_letter(p));
    room.field(r as u32);
}

// F where save t is marked failed.
fn failed_letter(b: &[u8], t: usize) -> u8
    requires { (ORDER ≤ length b.now) × (t < 32) }
    ensures { result ≡ rules.failed_letter (set? (part FAILED 32 b.now t)) }
{
    if b[Session::FAILED + t] == 0 {
        b'-'
    } else {
        b'F'
    }
}

// W where save t is in a later run that is wide.
fn wide_letter(x: &Session, t: usize) -> u8
    requires { Marked x.now × (t < 32) }
    ensures { result ≡ rules.wide_letter (wide_run x.now t) }
{
    let later = x.bytes[Session::PHASE + t] == state::SECOND_RUN;
    if later && submits::is_wide(x.sets, x.m, t) {
        b'W'
    } else {
        b'-'
    }
}

// The last place of save t is one of the order's.
fn has_place(x: &Session, t: usize) -> bool
    requires { Ordered x.now.bytes.now x.now.queues.now × (t < 32) }
    ensures { result ≡ rules.has_place (numbered_by x.now) t }
{
    let p = x.queues[Session::PLACE + t];
    p < x.queues[Session::PLACED] && x.bytes[Session::ORDER + p as usize] as usize == t
}

// The last place of save t, or -.
fn save_place(room: &mut Room, x: &Session, t: usize)
    requires { Numbered x.now × (t < 32) × (room.old.at + 11 ≤ most) }
    ensures { Puts room.old room.new
        (rules.place_field (rules.has_place (numbered_by x.now) t) (place_in x.now.queues.now t))
        11 }
{
    if has_place(x, t) {
        room.field(x.queues[Session::PLACE + t] as u32);
    } else {
        room.letter(b'-');
    }
}

// f w
fn save_marks(room: &mut Room, x: &Session, t: usize)
    requires { Marked x.now × (t < 32) × (room.old.at + 4 ≤ most) }
    ensures { Puts room.old room.new
        (rules.save_marks (set? (part FAILED 32 x.now.bytes.now t)) (wide_run x.now t))
        4 }
{
    room.letter(failed_letter(x.bytes, t));
    room.letter(wide_letter(x, t));
}

// Save t's line, if it has begun.
fn save(room: &mut Room, x: &Session, t: usize)
    requires { Marked x.now × Numbered x.now × (t < 32) × (room.old.at + 41 ≤ most) }
    ensures { Puts room.old room.new (rules.save_text (unstored x.now) t) 41 }
{
    let p = x.bytes[Session::PHASE + t];
    if p == state::UNUSED {
        return;
    }
    save_head(room, t, p, x.bytes[Session::RUNS + t]);
    save_marks(room, x, t);
    save_place(room, x, t);
    room.put(b'\n');
}

// The lines of all saves.
fn save_lines(room: &mut Room, x: &Session)
    requires { Marked x.now × Numbered x.now × (room.old.at + 1312 ≤ most) }
    ensures { Puts room.old room.new (rules.save_lines (unstored x.now)) 1312 }
{
    for t in 0..Session::SAVES {
        save(room, x, t);
    }
}

// ---- L q t x

// L where place p is the last one of save t, F where it is a former one.
fn last_letter(q: &[u64], t: usize, p: usize) -> u8
    requires { (QUEUE ≤ length q.now) × (t < 32) }
    ensures { result ≡ rules.last_letter (eqb (place_in q.now t) p) }
{
    let last = q[Session::PLACE + t] as usize == p;
    if last { b'L' } else { b'F' }
}

// The line of place p.
fn place(room: &mut Room, x: &Session, p: usize)
    requires { Numbered x.now × (p < placed x.now.queues.now) × (room.old.at + 26 ≤ most) }
    ensures { Puts room.old room.new (rules.order_line (numbered_by x.now) p) 26 }
{
    let t = x.bytes[Session::ORDER + p];
    room.line_start(b'L', p as u32, t as u32);
    room.letter(last_letter(x.queues, t as usize, p));
    room.put(b'\n');
}

// The lines of the order. It has room for 2,752 places, of 26 bytes each.
fn order_lines(room: &mut Room, x: &Session)
    requires { Numbered x.now × (room.old.at + 71552 ≤ most) }
    ensures { Puts room.old room.new (rules.order_lines (numbered_by x.now)) 71552 }
{
    for p in 0..x.queues[Session::PLACED] as usize {
        place(room, x, p);
    }
}

// ---- N n q

// The line of node n.
fn node(room: &mut Room, q: &[u64], n: usize)
    requires { (QUEUE ≤ length q.now) × (n < 8) × (get_or q.now (TAKEN + n) 0 ≤ most_places) × (room.old.at + 24 ≤ most) }
    ensures { Puts room.old room.new (rules.node_line_of n (part TAKEN 8 q.now n)) 24 }
{
    room.line_start(b'N', n as u32, q[Session::TAKEN + n] as u32);
    room.put(b'\n');
}

// The lines of all nodes.
fn node_lines(room: &mut Room, x: &Session)
    requires { Numbered x.now × (room.old.at + 192 ≤ most) }
    ensures { Puts room.old room.new (rules.node_lines (numbered_by x.now)) 192 }
{
    for n in 0..x.bytes[Session::NODE_COUNT] as usize {
        node(room, x.queues, n);
    }
}

// ---- All of it

// The report's lines, made aside where they fit and copied.
fn report_lines(room: &mut Room, x: &Session, tally: Tally)
    requires { Ordered x.now.bytes.now x.now.queues.now × Table 2 x.now.m x.now.sheets.now × (x.now.m ≤ max_sheets)
        × (room.old.at + 867 + 35 * x.now.m ≤ most) }
    ensures { Puts room.old room.new
        (state_lines (shown x.now.m (slices x.now.bytes.now [] x.now.queues.now [] [] x.now.sheets.now) (figures tally)))
        (867 + 35 * x.now.m) }
{
    let mut lines = [0u8; rows::MOST_LINES];
    let mut w = Writer {
        buf: &mut lines,
        at: 0,
    };
    rows::state_lines(&mut w, x, tally);
    room.append(w.written());
}

// The text of the state that the session shows: how long it is. So it is asked with no room.
pub fn text(room: &mut [u8], x: &Session, tally: Tally) -> usize
    requires { Shows x.now }
    ensures { Wrote room.old 0 (rules.state_text (shown_by x.now (figures tally))) (text_room x.now.m) result room.new }
{
    let mut room = Room { bytes: room, at: 0 };
    report_lines(&mut room, x, tally);
    save_lines(&mut room, x);
    order_lines(&mut room, x);
    node_lines(&mut room, x);
    holdings::lines(&mut room, x);
    waits::lines(&mut room, x);
    room.at
}
