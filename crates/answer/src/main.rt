// Reads a session from standard input and prints the answer of a call on it, then the part shown in hexadecimal.
#![tactic(auto)]

use limits::MAX_SESSION;
use refusals::Refused;
use session::Reply;
use state::{Rule, Verdict};
use std::io;

fn word(rule: Rule) -> &'static str {
    match rule {
        Rule::XGranted => "granted",
        Rule::XWaiting => "waiting",
        Rule::CounterBehind => "behind",
    }
}

// "take T valid", or "take T invalid K" with the rule's word.
fn say_taken(rt: &impl Print, t: u8, v: Verdict) -> io::Result<()> {
    match v {
        Verdict::Valid => println!(rt; "take {t} valid"),
        Verdict::Invalid(cause) => {
            let k = cause.sheet;
            let rule = word(cause.rule);
            println!(rt; "take {t} invalid {k} {rule}")
        }
    }
}

fn say(rt: &impl Print, answer: Result<Option<Reply>, Refused>) -> io::Result<()> {
    match answer {
        Ok(None) => println!(rt; "none"),
        Ok(Some(Reply::Accepted)) => println!(rt; "accepted"),
        Ok(Some(Reply::Content(v))) => println!(rt; "content {v}"),
        Ok(Some(Reply::Took(t, v))) => say_taken(rt, t, v),
        Ok(Some(Reply::Commits)) => println!(rt; "decide committed"),
        Ok(Some(Reply::SecondRun)) => println!(rt; "decide second run"),
        Err(r) => {
            let p = r.place;
            let n = u8::from(r.why);
            println!(rt; "refused {p} {n}")
        }
    }
}

// The bytes in hexadecimal, one blank between.
fn say_bytes(rt: &impl Print, bytes: &[u8]) -> io::Result<()> {
    let mut blank = "";
    for b in bytes {
        print!(rt; "{blank}{b:02X}")?;
        blank = " ";
    }
    println!(rt)
}

fn main(rt: HostRuntime) -> io::Result<()> {
    // One byte more than a session may have: a longer input is then refused for what it is.
    let mut space = [0u8; MAX_SESSION + 1];
    let n = intake::read_full(&mut rt.stdin(), &mut space)?;
    say(&rt, cusphewa::last_answer(&space[..n]))?;
    say_bytes(&rt, cusphewa::shown(&space[..n]))
}
