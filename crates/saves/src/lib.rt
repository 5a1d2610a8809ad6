// The commands that change a save's phase alone: BEGIN and GIVE UP. Each does what its rule says.
#![tactic(auto)]

ghost use Rattle.std.specs.Prelude.{◌≤◌, ◌<◌, length};
ghost use Rattle.rules.specs.Bytes.{Begin, GiveUp};
ghost use Rattle.state.specs.View.{part, ORDER, RUNS};
ghost use Rattle.state.specs.Lent.{own, Only, Alone, Moves, Keeps};

use refusals::Refusal;
use state::{Answer, DROPPED, FIRST_RUN, Session, UNUSED};

// An unused save enters its first run.
pub fn begin(x: &mut Session, t: u8) -> Result<Answer, Refusal>
    requires { (ORDER ≤ length x.old.bytes.now) × ((u : _) → part RUNS 32 x.old.bytes.now u < 255) }
    ensures moves { Moves x.old (Begin t) x.new result }
    ensures kept { Keeps x.old x.new }
    ensures only { Only (own x.new.bytes.now) x.old x.new }
    ensures alone { Alone x.old.m (own x.old.bytes.now) (Begin t) (own x.new.bytes.now) result }
{
    let i = state::save_index(t)?;
    let p = x.bytes[Session::PHASE + i];
    if p != UNUSED {
        return Err(state::out_of_phase(p));
    }
    x.bytes[Session::RUNS + i] += 1;
    x.bytes[Session::PHASE + i] = FIRST_RUN;
    Ok(Answer::Accepted)
}

// A running save is dropped.
pub fn give_up(x: &mut Session, t: u8) -> Result<Answer, Refusal>
    requires { ORDER ≤ length x.old.bytes.now }
    ensures moves { Moves x.old (GiveUp t) x.new result }
    ensures kept { Keeps x.old x.new }
    ensures only { Only (own x.new.bytes.now) x.old x.new }
    ensures alone { Alone x.old.m (own x.old.bytes.now) (GiveUp t) (own x.new.bytes.now) result }
{
    let i = state::save_index(t)?;
    state::in_run(x.bytes[Session::PHASE + i])?;
    x.bytes[Session::PHASE + i] = DROPPED;
    Ok(Answer::Accepted)
}
