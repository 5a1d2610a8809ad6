// Claims and own copies as lines, C t k c m with v w b where there is a copy: of every save, and of every sheet that it claims or has a copy of.
#![tactic(auto)]

ghost use Rattle.std.specs.Prelude.{◌≡◌, ◌||◌, ◌+◌, ◌*◌, ◌<◌, ◌≤◌, ltb};
ghost use Rattle.rules.specs.Showing as rules;
ghost use Rattle.rules.specs.Showing.{rising};
ghost use Rattle.sets.specs.Bit.{in_row};
ghost use Rattle.clipped.specs.Sizes.{most};
ghost use Rattle.clipped.specs.Puts.{Puts};
ghost use Rattle.state.specs.View.{COPIED, CLAIM};
ghost use Rattle.holdings.specs.Held.{claim_at, mark_at, Reach, Readable, held_by};

use clipped::Room;
use state::Session;

// The letter of save t's claim of sheet k: S, X, or - for none. Kept beside `mark_letter`: one function would be handed two rows and two letters.
fn claim_letter(s: &[u64], t: usize, k: usize) -> u8
    requires { Reach s.now t k }
    ensures { result ≡ rules.claim_letter (claim_at s.now t k) }
{
    if state::member(s, Session::CLAIM_X + t, k) {
        b'X'
    } else if state::member(s, Session::CLAIM + t, k) {
        b'S'
    } else {
        b'-'
    }
}

// The letter of its copy's mark: R read, W also written, or - for no copy.
fn mark_letter(s: &[u64], t: usize, k: usize) -> u8
    requires { Reach s.now t k }
    ensures { result ≡ rules.mark_letter (mark_at s.now t k) }
{
    if state::member(s, Session::WRITTEN + t, k) {
        b'W'
    } else if state::member(s, Session::COPIED + t, k) {
        b'R'
    } else {
        b'-'
    }
}

// C t k c m
fn head(room: &mut Room, s: &[u64], t: usize, k: usize)
    requires { Reach s.now t k × (k < 65536) × (room.old.at + 27 ≤ most) }
    ensures { Puts room.old room.new (rules.holding_head t k (claim_at s.now t k) (mark_at s.now t k)) 27 }
{
    room.line_start(b'C', t as u32, k as u32);
    room.letter(claim_letter(s, t, k));
    room.letter(mark_letter(s, t, k));
}

// B where the WCT seen is below the sheet's.
fn behind_letter(seen: u16, wct: u32) -> u8
    ensures { result ≡ rules.behind_letter (ltb seen wct) }
{
    if (seen as u32) < wct { b'B' } else { b'-' }
}

// v w b
fn fields(room: &mut Room, v: u32, seen: u16, wct: u32)
    requires { room.old.at + 24 ≤ most }
    ensures { Puts room.old room.new (rules.copy_fields (record { content = v; wct = seen }) (ltb seen wct)) 24 }
{
    room.field(v);
    room.field(seen as u32);
    room.letter(behind_letter(seen, wct));
}

// v w b, where save t has a copy of sheet k.
fn copy(room: &mut Room, x: &Session, t: usize, k: usize)
    requires { Readable x.now × (t < 32) × (k < x.now.m) × (room.old.at + 24 ≤ most) }
    ensures { Puts room.old room.new (rules.copy_text (held_by x.now) t k) 24 }
{
    if !state::member(x.sets, Session::COPIED + t, k) {
        return;
    }
    let v = state::cell(x.value, x.m, t, k);
    let seen = x.seen[t * x.m + k];
    let wct = state::cell(x.sheets, x.m, Session::WCT, k);
    fields(room, v, seen, wct);
}

// Save t's line for sheet k, if it has one: where it claims the sheet or has a copy of it. An X is a claim, and what is written is copied.
fn holding(room: &mut Room, x: &Session, there: bool, t: usize, k: usize)
    requires { Readable x.now × (there ≡ (in_row x.now.sets.now (CLAIM + t) k || in_row x.now.sets.now (COPIED + t) k)) × (t < 32) × (k < x.now.m)
        × (room.old.at + 52 ≤ most) }
    ensures { Puts room.old room.new (rules.holding_text (held_by x.now) t k) 52 }
{
    if !there {
        return;
    }
    head(room, x.sets, t, k);
    copy(room, x, t, k);
    room.put(b'\n');
}

// Save t's lines. Most saves have nothing of most sheets: which ones they have is looked up once for 64 sheets, and where there are none they are passed by.
fn row(room: &mut Room, x: &Session, t: usize)
    requires { Readable x.now × (t < 32) × (room.old.at + 52 * x.now.m ≤ most) }
    ensures { Puts room.old room.new (rising (rules.holding_text (held_by x.now) t) x.now.m) (52 * x.now.m) }
{
    let m = x.m;
    for j in 0..state::blocks(m) {
        let claimed = state::word(x.sets, Session::CLAIM + t, j);
        let copied = state::word(x.sets, Session::COPIED + t, j);
        let some = sets::either(claimed, copied);
        if !sets::some(some) {
            continue;
        }
        for k in 64 * j..m.min(64 * j + 64) {
            holding(room, x, sets::has(some, k % 64), t, k);
        }
    }
}

// All lines.
pub fn lines(room: &mut Room, x: &Session)
    requires { Readable x.now × (room.old.at + 32 * (52 * x.now.m) ≤ most) }
    ensures { Puts room.old room.new (rules.holding_lines (held_by x.now)) (32 * (52 * x.now.m)) }
{
    for t in 0..Session::SAVES {
        row(room, x, t);
    }
}
