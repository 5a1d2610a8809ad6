// One step of a session.
#![tactic(auto)]

ghost use Rattle.wire.specs.Meaning.{command_of};
ghost use Rattle.state.specs.View.{tables};
ghost use Rattle.state.specs.Fit.{ReadyIn, Rising, Fit};
ghost use Rattle.state.specs.Lent.{Same, Moves, Keeps};

use refusals::Refusal;
use state::{Answer, Session};
use wire::Command;

// State and answer after a command are those of the rules.
pub fn step(x: &mut Session, c: Command) -> Result<Answer, Refusal>
    requires { ReadyIn x.old × Rising x.old.m x.old.sheets.now × Fit x.old.m (tables x.old) }
    ensures moves { Moves x.old (command_of c) x.new result }
    ensures kept { Keeps x.old x.new }
    ensures same { Same x.old x.new }
{
    // A `match`: the commands are eight and closed, and nothing of them is handed about.
    match c {
        Command::Begin(t) => saves::begin(x, t),
        Command::Read(t, k) => copies::read(x, t, k),
        Command::Write(t, v, k) => copies::write(x, t, k, v),
        Command::Submit(t) => submits::submit(x, t),
        Command::Take(n) => takes::take(x, n),
        Command::Decide(t) => decides::decide(x, t),
        Command::Apply(n, t) => applies::apply(x, n, t),
        Command::GiveUp(t) => saves::give_up(x, t),
    }
}
