// DECIDE: a save whose entries are granted is committed, or runs again.
#![tactic(auto)]

ghost use Rattle.rules.specs.Bytes.{Decide};
ghost use Rattle.sets.specs.Bit.{blocks};
ghost use Rattle.state.specs.Fit.{ReadyIn};
ghost use Rattle.state.specs.Lent.{saving, Only, Alone, Moves, Keeps};
ghost use Rattle.decides.specs.Settling.{Clears, Settles, Cleared, Settled};

use refusals::Refusal;
use state::{Answer, COMMITTED, SECOND_RUN, SUBMITTED, Session};

// Save t has no copy any more.
fn clear(s: &mut [u64], m: usize, t: usize)
    requires { Clears m t s.old }
    ensures { Cleared (blocks m) t s.old s.new }
{
    for j in 0..state::blocks(m) {
        state::set_word(s, Session::COPIED + t, j, 0);
        state::set_word(s, Session::WRITTEN + t, j, 0);
    }
}

// Save t did not fail, and is committed; or it failed, and runs again. The answer is whether it is committed.
fn settle(x: &mut Session, t: usize) -> bool
    requires { Settles x.old.m t x.old.bytes.now x.old.sets.now }
    ensures settled { Settled x.old.m t x.old.bytes.now x.old.sets.now x.new.bytes.now x.new.sets.now result }
    ensures only { Only (saving x.new.bytes.now x.new.sets.now x.old.queues.now) x.old x.new }
{
    if x.bytes[Session::FAILED + t] == 0 {
        x.bytes[Session::PHASE + t] = COMMITTED;
        return true;
    }
    x.bytes[Session::RUNS + t] += 1;
    x.bytes[Session::PHASE + t] = SECOND_RUN;
    let m = x.m;
    clear(x.sets, m, t);
    false
}

// A save that did not fail is committed, from its first run or a later one; a failed one runs again. The run is asked for first, so that every way
// through has its own answer.
pub fn decide(x: &mut Session, t: u8) -> Result<Answer, Refusal>
    requires { ReadyIn x.old }
    ensures moves { Moves x.old (Decide t) x.new result }
    ensures kept { Keeps x.old x.new }
    ensures only { Only (saving x.new.bytes.now x.new.sets.now x.old.queues.now) x.old x.new }
    ensures alone { Alone x.old.m (saving x.old.bytes.now x.old.sets.now x.old.queues.now) (Decide t)
        (saving x.new.bytes.now x.new.sets.now x.old.queues.now) result }
{
    let i = state::save_index(t)?;
    let p = x.bytes[Session::PHASE + i];
    if p != SUBMITTED {
        return Err(state::out_of_phase(p));
    }
    let m = x.m;
    let sets = &mut *x.sets;
    let queues = &mut *x.queues;
    if !granting::decidable(sets, queues, m, i) {
        return Err(Refusal::NotGranted);
    }
    let runs = x.bytes[Session::RUNS + i];
    if runs <= 1 {
        if settle(x, i) {
            return Ok(Answer::Commits);
        }
        return Ok(Answer::SecondRun);
    }
    if settle(x, i) {
        return Ok(Answer::CommitsLater);
    }
    Ok(Answer::SecondRun)
}
