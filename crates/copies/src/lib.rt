// The commands on a save's own copies: READ and WRITE. Each does what its rule says.
#![tactic(auto)]

ghost use Rattle.std.specs.Prelude.{◌+◌, ◌*◌, ◌/◌, ◌≤◌, ◌<◌, ◌≡◌, true, not, ◌&&◌, length, get_or, eqb};
ghost use Rattle.rules.specs.Bytes.{Read, Write};
ghost use Rattle.sets.specs.Bit.{in_row, stride};
ghost use Rattle.queues.specs.Front.{Ranked, fronted};
ghost use Rattle.state.specs.View.{ORDER, PHASE, COPIED, QUEUE, queue_of, queue_x_of, queued, queued_x};
ghost use Rattle.state.specs.Fit.{Table, ReadyIn, Rising};
ghost use Rattle.state.specs.Lent.{writing, all, Only, Alone, Moves, Keeps};
ghost use Rattle.copies.specs.Barred.{barred_by, Barred};
ghost use Rattle.copies.specs.Copies.{Copies};

use refusals::Refusal;
use state::{Answer, SECOND_RUN, Session};

// READ or WRITE of sheet k by save t is refused before its copy is looked at, or not. In every run any sheet is open.
fn barred(x: &Session, t: u8, k: usize) -> Result<(), Refusal>
    requires { ORDER ≤ length x.now.bytes.now }
    ensures { Barred (barred_by x.now.m x.now.bytes.now t k) result }
{
    let i = state::save_index(t)?;
    if x.m <= k {
        return Err(Refusal::OutOfRange);
    }
    state::in_run(x.bytes[Session::PHASE + i])
}

// Save t has a copy of sheet k.
fn has_copy(x: &Session, t: usize, k: usize) -> bool
    requires { (t < 32) × (COPIED + t + stride * (k / 64) < length x.now.sets.now) }
    ensures { result ≡ in_row x.now.sets.now (COPIED + t) k }
{
    state::member(x.sets, Session::COPIED + t, k)
}

// Save t is in its first run, and finds an X at the front of sheet k's queue.
fn blocked(x: &Session, t: usize, k: usize) -> bool
    requires { (t < 32) × (ORDER ≤ length x.now.bytes.now) × (QUEUE + 2 * x.now.m ≤ length x.now.queues.now) × (x.now.m < 65536) × (k < x.now.m)
        × Ranked x.now.queues.now (queue_of x.now.m x.now.queues.now k)
        × ((u : _) → queued_x x.now.m x.now.queues.now k u ≡ true → queued x.now.m x.now.queues.now k u ≡ true) }
    ensures { result ≡ (not (eqb (get_or x.now.bytes.now (PHASE + t) 0) 3)
        && fronted x.now.queues.now (queue_of x.now.m x.now.queues.now k) (queue_x_of x.now.m x.now.queues.now k)) }
{
    let p = x.bytes[Session::PHASE + t];
    if p == SECOND_RUN {
        return false;
    }
    queues::front_x(x.queues, x.m, k)
}

// A save is answered from its own copy of the sheet, which is made first where it has none.
pub fn read(x: &mut Session, t: u8, k: usize) -> Result<Answer, Refusal>
    requires { ReadyIn x.old × Table 32 x.old.m x.old.value.now × Table 32 x.old.m x.old.seen.now × Table 2 x.old.m x.old.sheets.now
        × Rising x.old.m x.old.sheets.now }
    ensures moves { Moves x.old (Read t k) x.new result }
    ensures kept { Keeps x.old x.new }
    ensures only { Only (all x.old.bytes.now x.new.sets.now x.old.queues.now x.new.value.now x.new.seen.now x.old.sheets.now) x.old x.new }
{
    barred(x, t, k)?;
    let i = t as usize;
    let m = x.m;
    if has_copy(x, i, k) {
        let value = &mut *x.value;
        return Ok(Answer::Content(state::cell(value, m, i, k)));
    }
    if blocked(x, i, k) {
        return Err(Refusal::HeldByX);
    }
    let sheets = &mut *x.sheets;
    let v = state::cell(sheets, m, Session::CONTENT, k);
    let n = state::cell(sheets, m, Session::WCT, k);
    state::set_cell(x.value, m, i, k, v);
    x.seen[i * m + k] = n as u16;
    state::insert(x.sets, Session::COPIED + i, k);
    Ok(Answer::Content(v))
}

// The save's own copy of the sheet is changed.
pub fn write(x: &mut Session, t: u8, k: usize, v: u32) -> Result<Answer, Refusal>
    requires { Copies x.old.m x.old.bytes.now x.old.sets.now × Table 32 x.old.m x.old.value.now }
    ensures moves { Moves x.old (Write t k v) x.new result }
    ensures kept { Keeps x.old x.new }
    ensures only { Only (writing x.old.bytes.now x.new.sets.now x.new.value.now) x.old x.new }
    ensures alone { Alone x.old.m (writing x.old.bytes.now x.old.sets.now x.old.value.now) (Write t k v)
        (writing x.old.bytes.now x.new.sets.now x.new.value.now) result }
{
    barred(x, t, k)?;
    let i = t as usize;
    if !has_copy(x, i, k) {
        return Err(Refusal::NoCopy);
    }
    let m = x.m;
    state::set_cell(x.value, m, i, k, v);
    state::insert(x.sets, Session::WRITTEN + i, k);
    Ok(Answer::Accepted)
}
