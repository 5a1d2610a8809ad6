// The running tally: T's three figures, advanced by each command.
#![tactic(auto)]

ghost use Rattle.std.specs.Prelude.{◌≡◌, ◌+◌, ◌<◌, ◌^◌};
ghost use Rattle.state.specs.View.{advanced};
ghost use Rattle.tally.specs.Figures.{figures, plus, Room};

use state::Answer;

// Commands accepted, saves committed from the first run, from a later one.
#[derive(Clone, Copy)]
pub struct Tally {
    pub accepted: u32,
    pub first: u32,
    pub second: u32,
}

// Advanced where it lies.
pub fn advance(t: &mut Tally, a: u32, f: u32, s: u32)
    requires { (t.old.accepted + a < 2 ^ 32) × (t.old.first + f < 2 ^ 32) × (t.old.second + s < 2 ^ 32) }
    ensures { t.new ≡ plus t.old a f s }
{
    t.accepted += a;
    t.first += f;
    t.second += s;
}

impl Tally {
    // Nothing is counted yet.
    pub fn new() -> Tally
        ensures { (result.accepted ≡ 0) × (result.first ≡ 0) × (result.second ≡ 0) }
    {
        Tally {
            accepted: 0,
            first: 0,
            second: 0,
        }
    }

    // Advanced by a command's answer. Each arm names what it adds: a sum of the answer's own would be carried along by every command.
    pub fn advanced(self, a: Answer) -> Tally
        requires { Room self }
        ensures { figures result ≡ advanced (figures self) a }
    {
        let mut t = self;
        match a {
            Answer::Accepted | Answer::Content(_) | Answer::Took(_, _) | Answer::SecondRun => {
                advance(&mut t, 1, 0, 0);
            }
            Answer::Commits => advance(&mut t, 1, 1, 0),
            Answer::CommitsLater | Answer::Recommits => advance(&mut t, 1, 0, 1),
        }
        t
    }
}
