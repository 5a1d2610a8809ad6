// APPLY: a node carries out a save's outcome.
#![tactic(auto)]

ghost use Rattle.std.specs.Prelude.{◌+◌, ◌*◌, ◌≤◌, ◌<◌, ◌≡◌, ◌&&◌, length};
ghost use Rattle.rules.specs.Bytes.{Apply};
ghost use Rattle.rules.specs.Table.{any};
ghost use Rattle.sets.specs.Bit.{in_row, stride, blocks};
ghost use Rattle.state.specs.View.{rows, HELD, OWNED};
ghost use Rattle.state.specs.Fit.{Ends, Table, ReadyIn, Rising};
ghost use Rattle.state.specs.Lent.{applying, Only, Alone, Moves, Keeps};
ghost use Rattle.applies.specs.Counts.{Counts};

use refusals::Refusal;
use state::{Answer, COMMITTED, Session};

// Save t has an entry at node n.
fn has_entry(s: &[u64], m: usize, n: usize, t: usize) -> bool
    requires { (stride * blocks m + rows ≤ length s.now + stride) × (m < 65536) × (n < 8) × (t < 32) × Ends m s.now }
    ensures { result ≡ any m (λ k. in_row s.now (HELD + t) k && in_row s.now (OWNED + n) k) }
{
    for j in 0..state::blocks(m) {
        let held = state::word(s, Session::HELD + t, j);
        if sets::meet(held, state::word(s, Session::OWNED + n, j)) {
            return true;
        }
    }
    false
}

// Node n carries out save t's outcome, and t's entries there go.
pub fn apply(x: &mut Session, n: u8, t: u8) -> Result<Answer, Refusal>
    requires { ReadyIn x.old × Table 32 x.old.m x.old.value.now × Table 2 x.old.m x.old.sheets.now × Rising x.old.m x.old.sheets.now }
    ensures moves { Moves x.old (Apply n t) x.new result }
    ensures kept { Keeps x.old x.new }
    ensures marks { Counts x.old n t x.new result }
    ensures only { Only (applying x.old.bytes.now x.new.sets.now x.new.queues.now x.old.value.now x.new.sheets.now) x.old x.new }
    ensures alone { Alone x.old.m (applying x.old.bytes.now x.old.sets.now x.old.queues.now x.old.value.now x.old.sheets.now) (Apply n t)
        (applying x.old.bytes.now x.new.sets.now x.new.queues.now x.old.value.now x.new.sheets.now) result }
{
    if x.bytes[Session::NODE_COUNT] <= n {
        return Err(Refusal::OutOfRange);
    }
    let i = state::save_index(t)?;
    let n = n as usize;
    let p = x.bytes[Session::PHASE + i];
    if p < COMMITTED {
        return Err(state::out_of_phase(p));
    }
    let m = x.m;
    let sets = &mut *x.sets;
    if !has_entry(sets, m, n, i) {
        return Err(Refusal::NoEntry);
    }
    leaving::leave(x.sets, x.queues, m, i, Session::OWNED + n);
    if p == COMMITTED {
        let sets = &mut *x.sets;
        let value = &mut *x.value;
        let sheets = &mut *x.sheets;
        storing::carry_out(sets, value, sheets, m, n, i);
    }
    Ok(Answer::Accepted)
}
