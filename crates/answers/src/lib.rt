// Every command's answer, as numbers for the host, in one pass over the session.
#![tactic(auto)]

ghost use Rattle.std.specs.Prelude.{◌≡◌, [], ◌∷◌, map, ◌<◌, Some};
ghost use Rattle.rules.specs.Sizes.{max_commands};
ghost use Rattle.rules.specs.Answers.{EachPrefix, FewAnswers, session_replies};
ghost use Rattle.wire.specs.Meaning.{opened};
ghost use Rattle.wire.specs.Refusing.{outcome_of};
ghost use Rattle.state.specs.View.{tables};
ghost use Rattle.state.specs.Lent.{Same};
ghost use Rattle.session.specs.Meaning.{reply_of};
ghost use Rattle.session.specs.Looping.{Begins};
ghost use Rattle.codes.specs.Codes.{answer_code, NearReply, told_call, fitted, Small};
ghost use Rattle.codes.specs.Decoding.{answer_of, outcome_in};
ghost use Rattle.answers.specs.Meaning.{answers_call, AnswersAgain};
ghost use Rattle.answers.specs.Telling.{Numbered, Listed};

use refusals::{Refusal, Refused};
use session::Reply;
use state::Session;
use wire::Header;

// One answer more behind the first `count`, where the room goes so far.
fn tell(room: &mut [u64], count: usize, r: Result<Option<Reply>, Refused>) -> usize
    requires { (count < max_commands) × NearReply r }
    ensures { Numbered room.old count (reply_of r ∷ []) 1 result room.new }
{
    let n = codes::reply_code(r);
    if count < room.len() {
        room[count] = n;
    }
    count + 1
}

// Carries a session's fresh state through its steps to the end or the first refusal, and lists the answers on the way.
fn walk(session: &[u8], room: &mut [u64], x: &mut Session) -> usize
    requires { Begins session.now x.old.m (tables x.old) }
    ensures same { Same x.old x.new }
    ensures listed { Listed session.now x.old.m room.old result room.new }
{
    let mut count: usize = 0;
    let mut at = 2 + x.m;
    // Kept: an offset that goes on by the command's size. `session::steps` keeps other things on the way; the step is shared.
    loop {
        match session::step_at(session, at, x) {
            Ok(None) => return count,
            Ok(Some((a, z))) => {
                count = tell(room, count, Ok(Some(Reply::from(a))));
                at += z;
            }
            Err(r) => return tell(room, count, Err(r)),
        }
    }
}

// Carries a session with this header through, and lists its answers as far as the room goes: how many there are.
fn pass(session: &[u8], room: &mut [u64], header: Header) -> usize
    requires { opened session.now ≡ Some header }
    ensures { Listed session.now header.sheets room.old result room.new }
{
    // The six arrays stand wherever a session is made: a function can't hand them back without copying 18 KB.
    let mut bytes = [0u8; Session::BYTES];
    let mut sets = [0u64; Session::SETS];
    let mut queues = [0u64; Session::QUEUES];
    let mut value = [0u32; Session::COPIES];
    let mut seen = [0u16; Session::COPIES];
    let mut sheets = [0u32; Session::STORE];
    let end = 2 + header.sheets as usize;
    let mut x = Session::fresh(
        &mut bytes,
        &mut sets,
        &mut queues,
        &mut value,
        &mut seen,
        &mut sheets,
        header.nodes,
        &session[2..end],
    );
    walk(session, room, &mut x)
}

// The answers of a session with this header, if the room holds them. A place for every two bytes behind the header holds any; else they are counted
// first, so that nothing is written where they do not fit.
fn tell_all(session: &[u8], room: &mut [u64], header: Header) -> Result<usize, Refused>
    requires { opened session.now ≡ Some header }
    ensures room_after { record { outcome = outcome_of result; room = room.new } ≡ fitted (map answer_code (session_replies session.now)) room.old }
    ensures small { Small result }
    ensures again { map answer_of (map answer_code (session_replies session.now)) ≡ session_replies session.now }
{
    let most = (session.len() - header.sheets as usize - 1) / 2;
    if room.len() < most {
        let mut none = [0u64; 0];
        let n = pass(session, &mut none, header);
        if room.len() < n {
            return Err(Refusal::NoRoom.at(n));
        }
    }
    Ok(pass(session, room, header))
}

// Lists every command's answer, as cusphewa_answer's numbers, up to the first refusal: how many there are, or a refusal, which writes nothing.
pub fn cusphewa_answers(session: &[u8], list: &mut [u64]) -> u64
    ensures list_after { record { code = result; room = list.new } ≡ told_call (answers_call session.now list.old) }
    ensures decoded { outcome_in result ≡ (answers_call session.now list.old).outcome }
    ensures answers_again { AnswersAgain session.now result list.new }
    ensures prefixes { EachPrefix session.now }
    ensures few { FewAnswers session.now }
{
    match wire::read_header(session) {
        Some(header) => codes::placed_code(tell_all(session, list, header)),
        None => codes::refusal_code(Refusal::BadHeader.at(0)),
    }
}
