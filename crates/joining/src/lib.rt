// A save joins the end of the order: its claim, its place; and gives up a former one.
#![tactic(auto)]

ghost use Rattle.std.specs.Prelude.{◌+◌, ◌*◌, ◌≤◌, ◌<◌, length};
ghost use Rattle.sets.specs.Bit.{stride, blocks};
ghost use Rattle.state.specs.View.{placed, ORDER, QUEUE, rows};
ghost use Rattle.state.specs.Fit.{most_places};
ghost use Rattle.joining.specs.Joining.{Claimed, Placing, Joining, Freed};

use state::{SUBMITTED, Session};

// Save t claims what it has copied, with X what it has written, beside what it claimed.
fn claim(s: &mut [u64], m: usize, t: usize)
    requires { (stride * blocks m + rows ≤ length s.old + stride) × (m < 65536) × (t < 32) }
    ensures { Claimed (blocks m) t s.old s.new }
{
    for j in 0..state::blocks(m) {
        let c = sets::either(
            state::word(s, Session::CLAIM + t, j),
            state::word(s, Session::COPIED + t, j),
        );
        let x = sets::either(
            state::word(s, Session::CLAIM_X + t, j),
            state::word(s, Session::WRITTEN + t, j),
        );
        state::set_word(s, Session::CLAIM + t, j, c);
        state::set_word(s, Session::CLAIM_X + t, j, x);
    }
}

// Save t, which has no place, takes one at the end of the order: all that are placed are before it.
fn take_place(b: &mut [u8], q: &mut [u64], t: u8)
    requires { (ORDER + most_places ≤ length b.old) × (QUEUE ≤ length q.old) × (placed q.old < most_places) × (t < 32) }
    ensures { Placing t b.old q.old b.new q.new }
{
    let ti = t as usize;
    let p = q[Session::PLACED];
    b[Session::ORDER + p as usize] = t;
    q[Session::PLACE + ti] = p;
    q[Session::PLACED] = p + 1;
    let all = q[Session::JOINED];
    q[Session::BEFORE + ti] = all;
    q[Session::JOINED] = sets::with(all, ti);
}

// Save t joins the end of the order with its new claim, not failed. Three tables and not the session: the contents stay.
pub fn join(b: &mut [u8], s: &mut [u64], q: &mut [u64], m: usize, t: u8)
    requires { (ORDER + most_places ≤ length b.old) × (stride * blocks m + rows ≤ length s.old + stride) × (QUEUE ≤ length q.old)
        × (placed q.old < most_places) × (m < 65536) × (t < 32) }
    ensures { Joining m t b.old s.old q.old b.new s.new q.new }
{
    let ti = t as usize;
    claim(s, m, ti);
    b[Session::FAILED + ti] = 0;
    b[Session::PHASE + ti] = SUBMITTED;
    take_place(b, q, t);
}

// Save t's last place is given up: it is before no other save, and not among those placed.
pub fn give_place(q: &mut [u64], t: usize)
    requires { (QUEUE ≤ length q.old) × (t < 32) }
    ensures { Freed t q.old q.new }
{
    for u in 0..Session::SAVES {
        q[Session::BEFORE + u] = sets::without(q[Session::BEFORE + u], t);
    }
    q[Session::JOINED] = sets::without(q[Session::JOINED], t);
}
