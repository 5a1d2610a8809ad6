// SUBMIT: a save joins the end of the order with its claim, or is committed.
#![tactic(auto)]

ghost use Rattle.std.specs.Prelude.{◌+◌, ◌*◌, ◌≤◌, ◌<◌, ◌≡◌, length};
ghost use Rattle.rules.specs.Bytes.{Submit};
ghost use Rattle.sets.specs.Bit.{bit, stride, blocks};
ghost use Rattle.state.specs.View.{rows};
ghost use Rattle.state.specs.Fit.{Sets, ReadyIn};
ghost use Rattle.state.specs.Lent.{saving, Only, Alone, Moves, Keeps};
ghost use Rattle.submits.specs.Wide.{asks, wide_in};

use refusals::Refusal;
use state::{Answer, COMMITTED, FIRST_RUN, SECOND_RUN, Session};

// What the copies of block j ask for beyond save t's claim.
fn beyond(s: &[u64], t: usize, j: usize) -> u64
    requires { (stride * j + rows ≤ length s.now) × (t < 32) }
    ensures { (c : _) → bit result c ≡ asks s.now t j c }
{
    let c = sets::minus(
        state::word(s, Session::COPIED + t, j),
        state::word(s, Session::CLAIM + t, j),
    );
    let x = sets::minus(
        state::word(s, Session::WRITTEN + t, j),
        state::word(s, Session::CLAIM_X + t, j),
    );
    sets::either(c, x)
}

// Save t's run is wide: one of its copies asks for more than its claim.
pub fn is_wide(s: &[u64], m: usize, t: usize) -> bool
    requires { (stride * blocks m + rows ≤ length s.now + stride) × (m < 65536) × (t < 32) × Sets m s.now }
    ensures { result ≡ wide_in m s.now t }
{
    for j in 0..state::blocks(m) {
        if beyond(s, t, j) != 0 {
            return true;
        }
    }
    false
}

// First run: the save joins the end of the order with its claim. A later run: where it is wide, it leaves its place and joins again with a
// larger claim; else it is committed.
pub fn submit(x: &mut Session, t: u8) -> Result<Answer, Refusal>
    requires { ReadyIn x.old }
    ensures moves { Moves x.old (Submit t) x.new result }
    ensures kept { Keeps x.old x.new }
    ensures only { Only (saving x.new.bytes.now x.new.sets.now x.new.queues.now) x.old x.new }
    ensures alone { Alone x.old.m (saving x.old.bytes.now x.old.sets.now x.old.queues.now) (Submit t)
        (saving x.new.bytes.now x.new.sets.now x.new.queues.now) result }
{
    let i = state::save_index(t)?;
    let p = x.bytes[Session::PHASE + i];
    let m = x.m;
    if p == FIRST_RUN {
        joining::join(x.bytes, x.sets, x.queues, m, t);
        return Ok(Answer::Accepted);
    }
    if p != SECOND_RUN {
        return Err(state::out_of_phase(p));
    }
    let sets = &mut *x.sets;
    if is_wide(sets, m, i) {
        leaving::leave(x.sets, x.queues, m, i, Session::HELD + i);
        joining::give_place(x.queues, i);
        joining::join(x.bytes, x.sets, x.queues, m, t);
        return Ok(Answer::Accepted);
    }
    x.bytes[Session::PHASE + i] = COMMITTED;
    Ok(Answer::Recommits)
}
