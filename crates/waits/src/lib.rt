// Queues as lines, Q k t c g: of every sheet its entries from the front, each with its claim and whether it is granted; one that waits names the
// saves whose entries stand in its way.
#![tactic(auto)]

ghost use Rattle.std.specs.Prelude.{[], ◌+◌, ◌*◌, ◌<◌, ◌≤◌, length, get_or};
ghost use Rattle.rules.specs.Showing as rules;
ghost use Rattle.sets.specs.Bit.{bit};
ghost use Rattle.clipped.specs.Sizes.{most};
ghost use Rattle.clipped.specs.Puts.{Puts};
ghost use Rattle.state.specs.View.{bare, QUEUE};
ghost use Rattle.rows.specs.Rows.{Ordered, Small};
ghost use Rattle.waits.specs.Queues.{those, entry_text, lines_behind, Claimed};

use clipped::Room;
use state::Session;
use text::Writer;

// Names of 32 saves, three bytes each, where a field asks for eleven.
const NAMES: usize = 112;

// Save u's line with its claim's letter: granted, or waiting for the saves that are named. The hint is for `clipped`'s reason.
#[inline(always)]
fn entry(room: &mut Room, k: usize, u: u8, c: u8, names: &[u8])
    requires { (k < 65536) × (length names.now ≤ 96) × (room.old.at + 124 ≤ most) }
    ensures { Puts room.old room.new (entry_text k u c names.now) 124 }
{
    room.line_start(b'Q', k as u32, u as u32);
    room.letter(c);
    if names.is_empty() {
        room.letter(b'G');
    } else {
        room.letter(b'W');
        room.append(names);
    }
    room.put(b'\n');
}

// Sheet k's queue: those in line that have an entry. The names that the next entry waits for grow with each: all of them for an X, the X among
// them for an S.
fn queue(room: &mut Room, q: &[u64], line: &[u8], k: usize)
    requires { (k < 65536) × (QUEUE + 2 * k + 1 < length q.now) × (length line.now ≤ 32) × Small line.now (length line.now)
        × (room.old.at + 3968 ≤ most) }
    ensures { Puts room.old room.new
        (lines_behind (bit (get_or q.now (QUEUE + 2 * k + 1) 0)) k [] (those (bit (get_or q.now (QUEUE + 2 * k) 0)) line.now))
        3968 }
{
    let all = q[Session::QUEUE + 2 * k];
    let xs = q[Session::QUEUE + 2 * k + 1];
    let mut bytes = [0u8; NAMES];
    let mut x_bytes = [0u8; NAMES];
    let mut names = Writer {
        buf: &mut bytes,
        at: 0,
    };
    let mut x_names = Writer {
        buf: &mut x_bytes,
        at: 0,
    };
    for &u in line {
        if sets::has(all, u as usize) {
            if sets::has(xs, u as usize) {
                entry(room, k, u, b'X', names.written());
                x_names.field(u as u32);
            } else {
                entry(room, k, u, b'S', x_names.written());
            }
            names.field(u as u32);
        }
    }
}

// All queues: their lines are those of every state that shows them and claims what they have.
pub fn lines(room: &mut Room, x: &Session)
    requires { Ordered x.now.bytes.now x.now.queues.now × (x.now.m < 65536) × (QUEUE + 2 * x.now.m ≤ length x.now.queues.now)
        × (room.old.at + x.now.m * 3968 ≤ most) }
    ensures { (s : _) → Claimed x.now.m s x.now.queues.now
        → Puts room.old room.new (rules.queue_lines (bare x.now.m x.now.bytes.now s x.now.queues.now)) (x.now.m * 3968) }
{
    let mut line = [0u8; Session::SAVES];
    let n = rows::line_of(&mut line, x);
    for k in 0..x.m {
        queue(room, x.queues, &line[..n], k);
    }
}
