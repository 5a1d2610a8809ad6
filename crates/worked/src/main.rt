// Runs the worked session W of document 01 step by step, and prints the answers, one to a line.
#![tactic(auto)]

ghost use Rattle.std.specs.Prelude.{◌<◌, ◌≡◌};
ghost use Rattle.wire.specs.Meaning.{command_of};
ghost use Rattle.worked.specs.Worked.{command_at};

use refusals::Refusal;
use state::{Answer, Rule, Session, Verdict};
use std::io;
use wire::Command;

// W's commands.
fn command(i: usize) -> Command
    requires { i < 17 }
    ensures { command_of result ≡ command_at i }
{
    match i {
        0 => Command::Begin(0),
        1 => Command::Begin(1),
        2 => Command::Read(0, 0),
        3 => Command::Read(1, 0),
        4 => Command::Write(0, 7, 0),
        5 => Command::Write(1, 9, 0),
        6 => Command::Submit(0),
        7 => Command::Submit(1),
        8 => Command::Take(0),
        9 => Command::Take(0),
        10 => Command::Decide(0),
        11 => Command::Apply(0, 0),
        12 => Command::Decide(1),
        13 => Command::Read(1, 0),
        14 => Command::Write(1, 9, 0),
        15 => Command::Submit(1),
        _ => Command::Apply(0, 1),
    }
}

fn word(rule: Rule) -> &'static str {
    match rule {
        Rule::XGranted => "granted",
        Rule::XWaiting => "waiting",
        Rule::CounterBehind => "behind",
    }
}

fn print_taken(rt: &impl Print, t: u8, v: Verdict) -> io::Result<()> {
    match v {
        Verdict::Valid => println!(rt; "{t} valid"),
        Verdict::Invalid(cause) => {
            let k = cause.sheet;
            let rule = word(cause.rule);
            println!(rt; "{t} invalid {k} {rule}")
        }
    }
}

fn print(rt: &impl Print, answer: Result<Answer, Refusal>) -> io::Result<()> {
    match answer {
        Ok(Answer::Accepted | Answer::Recommits) => println!(rt; "accepted"),
        Ok(Answer::Content(v)) => println!(rt; "{v}"),
        Ok(Answer::Took(t, v)) => print_taken(rt, t, v),
        Ok(Answer::Commits | Answer::CommitsLater) => println!(rt; "commits"),
        Ok(Answer::SecondRun) => println!(rt; "second run"),
        Err(why) => {
            let n = u8::from(why);
            println!(rt; "refused {n}")
        }
    }
}

// Sheet 0 stands at node 0, sheet 1 at node 1.
fn run(rt: &impl Print) -> io::Result<()> {
    // The six arrays stand wherever a session is made: a function can't hand them back without copying 18 KB.
    let mut bytes = [0u8; Session::BYTES];
    let mut sets = [0u64; Session::SETS];
    let mut queues = [0u64; Session::QUEUES];
    let mut value = [0u32; Session::COPIES];
    let mut seen = [0u16; Session::COPIES];
    let mut sheets = [0u32; Session::STORE];
    let mut x = Session::fresh(
        &mut bytes,
        &mut sets,
        &mut queues,
        &mut value,
        &mut seen,
        &mut sheets,
        2,
        &[0, 1],
    );
    for i in 0..17 {
        print(rt, engine::step(&mut x, command(i)))?;
    }
    Ok(())
}

fn main(rt: HostRuntime) -> io::Result<()> {
    run(&rt)
}
