// Answers as numbers, for the host: a host in C can't take an enum.
#![tactic(auto)]

ghost use Rattle.std.specs.Prelude.{◌≡◌, ◌<◌, ◌≤◌};
ghost use Rattle.rules.specs.Steps.{took};
ghost use Rattle.rules.specs.Sizes.{max_session};
ghost use Rattle.rules.specs.Calls.{refusal, answers};
ghost use Rattle.rules.specs.Writing.{at, refuse_with};
ghost use Rattle.wire.specs.Refusing.{refused_at, outcome_of};
ghost use Rattle.session.specs.Meaning.{value_of, reply_of, NearVerdict, Near};
ghost use Rattle.state.specs.View.{verdict_of};
ghost use Rattle.codes.specs.Codes.{coded, verdict_code, answer_code, NearReply, outcome_code, Small};
ghost use Rattle.codes.specs.Decoding.{answer_of, outcome_in, as_told};

use refusals::Refused;
use session::Reply;
use state::Verdict;

// The last place that a code holds; it stands for all above.
const LAST_PLACE: usize = 4294967295;

// A kind, a value and a number in one.
pub fn code(kind: u64, value: u64, number: u8) -> u64
    requires { (kind < 16) × (value < 1099511627776) }
    ensures { result ≡ coded kind value number }
{
    kind * 281474976710656 + value * 256 + number as u64
}

// A TAKE's answer: the save, and where it was found invalid the sheet and the rule.
fn take_code(t: u8, v: Verdict) -> u64
    requires { NearVerdict v }
    ensures value { result ≡ verdict_code t (verdict_of v) }
    ensures decoded { answer_of result ≡ answers (took t (verdict_of v)) }
{
    match v {
        Verdict::Valid => code(3, t as u64, 0),
        Verdict::Invalid(cause) => {
            let k = cause.sheet;
            let rule = cause.rule;
            code(4, k as u64 * 65536 + t as u64, rule as u8)
        }
    }
}

// A refusal by its place and its number.
pub fn number_code(place: usize, number: u8) -> u64
    ensures value { result ≡ outcome_code (refuse_with (at place number)) }
    ensures decoded { outcome_in result ≡ as_told (refuse_with (at place number)) }
    ensures answer { place ≤ max_session → (result ≡ answer_code (refusal place number)) × (answer_of result ≡ refusal place number) }
{
    code(7, place.min(LAST_PLACE) as u64, number)
}

// A refusal with its place.
pub fn refusal_code(r: Refused) -> u64
    ensures value { result ≡ outcome_code (refuse_with (refused_at r)) }
    ensures decoded { outcome_in result ≡ as_told (refuse_with (refused_at r)) }
{
    number_code(r.place, u8::from(r.why))
}

// An accepted command's answer.
fn accepted_code(r: Reply) -> u64
    requires { Near r }
    ensures value { result ≡ answer_code (answers (value_of r)) }
    ensures decoded { answer_of result ≡ answers (value_of r) }
{
    match r {
        Reply::Accepted => code(1, 0, 0),
        Reply::Content(v) => code(2, v as u64, 0),
        Reply::Took(t, v) => take_code(t, v),
        Reply::Commits => code(5, 0, 0),
        Reply::SecondRun => code(6, 0, 0),
    }
}

// The answer of a call on a session: the last command's, if there was one, or the refusal.
pub fn reply_code(r: Result<Option<Reply>, Refused>) -> u64
    requires { NearReply r }
    ensures value { result ≡ answer_code (reply_of r) }
    ensures decoded { answer_of result ≡ reply_of r }
{
    match r {
        Ok(last) => match last {
            Some(reply) => accepted_code(reply),
            None => code(0, 0, 0),
        },
        Err(refused) => refusal_code(refused),
    }
}

// The answer of a call that writes into a room: how many bytes or numbers were written, or the refusal.
pub fn placed_code(r: Result<usize, Refused>) -> u64
    requires { Small r }
    ensures value { result ≡ outcome_code (outcome_of r) }
    ensures decoded { outcome_in result ≡ outcome_of r }
{
    match r {
        Ok(n) => code(8, n as u64, 0),
        Err(needs) => refusal_code(needs),
    }
}
