// TAKE: a node takes the next place of the order.
#![tactic(auto)]

ghost use Rattle.std.specs.Prelude.{◌+◌, ◌*◌, ◌≤◌, ◌<◌, ◌≡◌, true, length};
ghost use Rattle.rules.specs.Bytes.{Take};
ghost use Rattle.sets.specs.Bit.{bit};
ghost use Rattle.queues.specs.Front.{Ranked};
ghost use Rattle.state.specs.View.{queued, queued_x, QUEUE};
ghost use Rattle.state.specs.Fit.{Table, Last, Kept, ReadyIn};
ghost use Rattle.state.specs.Lent.{saving, taking, Only, Alone, Moves, Keeps};
ghost use Rattle.takes.specs.Take.{RuleAt, Taken};

use refusals::Refusal;
use state::{Answer, Cause, Rule, Session, Verdict};

// The rule at sheet k, where save t fails, by the entries before its own.
fn rule_at(x: &Session, t: usize, k: usize) -> Rule
    requires { (QUEUE + 2 * x.now.m ≤ length x.now.queues.now) × (x.now.m < 65536) × (t < 32) × (k < x.now.m)
        × ((a : _) → ((u : _) → bit a u ≡ true → queued x.now.m x.now.queues.now k u ≡ true) → Ranked x.now.queues.now a)
        × ((u : _) → queued_x x.now.m x.now.queues.now k u ≡ true → queued x.now.m x.now.queues.now k u ≡ true) }
    ensures { RuleAt x.now.queues.now t k result }
{
    let before = x.queues[Session::BEFORE + t];
    let all = sets::both(x.queues[Session::QUEUE + 2 * k], before);
    let xs = sets::both(x.queues[Session::QUEUE + 2 * k + 1], before);
    if queues::front_is(x.queues, all, xs) {
        return Rule::XGranted;
    }
    if sets::some(xs) {
        return Rule::XWaiting;
    }
    Rule::CounterBehind
}

// Node n takes save t at its last place: what it finds it.
fn take_last(x: &mut Session, n: usize, t: usize) -> Verdict
    requires { Kept x.old.m x.old.bytes.now x.old.sets.now x.old.queues.now × Last x.old.bytes.now x.old.queues.now t
        × Table 32 x.old.m x.old.seen.now × Table 2 x.old.m x.old.sheets.now × (x.old.m < 65536) × (n < 8) × (t < 32) }
    ensures taken { Taken x.old.m n t x.old.bytes.now x.old.sets.now x.old.queues.now x.old.seen.now x.old.sheets.now
        x.new.bytes.now x.new.sets.now x.new.queues.now result }
    ensures only { Only (saving x.new.bytes.now x.new.sets.now x.new.queues.now) x.old x.new }
{
    match entering::enter(x, n, t) {
        None => Verdict::Valid,
        Some(sheet) => {
            x.bytes[Session::FAILED + t] = 1;
            let rule = rule_at(x, t, sheet);
            Verdict::Invalid(Cause { sheet, rule })
        }
    }
}

// Node n takes the next place of the order. A former place of a save only counts.
pub fn take(x: &mut Session, n: u8) -> Result<Answer, Refusal>
    requires { ReadyIn x.old × Table 32 x.old.m x.old.seen.now × Table 2 x.old.m x.old.sheets.now }
    ensures moves { Moves x.old (Take n) x.new result }
    ensures kept { Keeps x.old x.new }
    ensures only { Only (saving x.new.bytes.now x.new.sets.now x.new.queues.now) x.old x.new }
    ensures alone { Alone x.old.m (taking x.old.bytes.now x.old.sets.now x.old.queues.now x.old.seen.now x.old.sheets.now) (Take n)
        (taking x.new.bytes.now x.new.sets.now x.new.queues.now x.old.seen.now x.old.sheets.now) result }
{
    if x.bytes[Session::NODE_COUNT] <= n {
        return Err(Refusal::OutOfRange);
    }
    let n = n as usize;
    let p = x.queues[Session::TAKEN + n];
    if x.queues[Session::PLACED] <= p {
        return Err(Refusal::AllTaken);
    }
    let t = x.bytes[Session::ORDER + p as usize];
    let i = t as usize;
    let last = x.queues[Session::PLACE + i];
    x.queues[Session::TAKEN + n] = p + 1;
    if last != p {
        return Ok(Answer::Took(t, Verdict::Valid));
    }
    Ok(Answer::Took(t, take_last(x, n, i)))
}
