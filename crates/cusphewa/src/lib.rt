// The calls on a session: its answer, the part that is shown; writing a session and reading it back. `reports`, `states` and `answers` have one call each.
#![tactic(auto)]

ghost use Rattle.std.specs.Prelude.{◌≡◌, length, Some};
ghost use Rattle.rules.specs.Causes.{WhyFailed};
ghost use Rattle.rules.specs.Ordered.{AlwaysOrdered};
ghost use Rattle.rules.specs.Agreeing.{Agrees, WritesAsRun, WrittenRuns};
ghost use Rattle.rules.specs.Calls as calls;
ghost use Rattle.rules.specs.Writing as lists;
ghost use Rattle.wire.specs.Meaning.{opened};
ghost use Rattle.session.specs.Meaning.{reply_of};
ghost use Rattle.session.specs.Carried.{Answered};
ghost use Rattle.codes.specs.Codes.{answer_code, NearReply, told_call};
ghost use Rattle.codes.specs.Decoding.{answer_of, outcome_in, as_told, part_in};
ghost use Rattle.cusphewa.specs.Codes.{part_code, PartOf};
ghost use Rattle.writing.specs.Meaning.{heading_of};

use refusals::{Refusal, Refused};
use session::{Ended, Reply};
use wire::Header;

// ---- The answer

// A run that is lent no room for a report, and writes none.
fn unreported(session: &[u8], header: Header) -> Ended
    requires { opened session.now ≡ Some header }
    ensures { Answered session.now result }
{
    let mut room = [0u8; 0];
    session::run(session, &mut room, header)
}

// The last command's answer, if there was one, or the refusal.
pub fn last_answer(session: &[u8]) -> Result<Option<Reply>, Refused>
    ensures answer { reply_of result ≡ calls.reply session.now }
    ensures near { NearReply result }
{
    let header = wire::read_header(session).ok_or(Refusal::BadHeader.at(0))?;
    let e = unreported(session, header);
    e.stop?;
    Ok(e.last)
}

// ---- The part shown

// Where the part stands that is shown: its offset and its size.
fn part(session: &[u8]) -> (usize, usize)
    ensures { PartOf session.now result.0 result.1 }
{
    let Some(header) = wire::read_header(session) else {
        return (0, 0);
    };
    let e = unreported(session, header);
    match e.stop {
        Ok(()) => (session.len(), 0),
        Err(r) => (r.place, e.shown),
    }
}

// The part of the session that holds its refused command.
pub fn shown(session: &[u8]) -> &[u8]
    ensures { result.now ≡ calls.shown session.now }
{
    let (from, size) = part(session);
    let end = from + size;
    &session[from..end]
}

// ---- Numbers for the host

// The answer of a call on a session, for the host.
pub fn cusphewa_answer(session: &[u8]) -> u64
    ensures value { result ≡ answer_code (calls.reply session.now) }
    ensures decoded { answer_of result ≡ calls.reply session.now }
    ensures why_failed { WhyFailed }
    ensures ordered { AlwaysOrdered }
{
    codes::reply_code(last_answer(session))
}

// The part shown, for the host: its offset and its size in one.
pub fn cusphewa_shown(session: &[u8]) -> u64
    ensures value { result ≡ part_code (calls.part session.now) }
    ensures decoded { part_in result ≡ calls.part session.now }
{
    let (from, size) = part(session);
    from as u64 * 4294967296 + size as u64
}

// ---- Writing and reading

// Writes the session of a header and a list of steps in words, four to a step: how many bytes it has, or a refusal, which writes nothing.
pub fn cusphewa_write(
    nodes: usize,
    sheets: usize,
    owners: &[u8],
    steps: &[u32],
    session: &mut [u8],
) -> u64
    ensures session_after { record { code = result; room = session.new }
        ≡ told_call (lists.write_call (heading_of nodes sheets owners.now) (lists.instructions steps.now) session.old) }
    ensures decoded { outcome_in result
        ≡ as_told (lists.write_call (heading_of nodes sheets owners.now) (lists.instructions steps.now) session.old).outcome }
    ensures read_again { lists.WrittenRead (heading_of nodes sheets owners.now) (lists.instructions steps.now) }
    ensures words_again { lists.WordsAgain (heading_of nodes sheets owners.now) steps.now }
    ensures one_writing { lists.OneWriting (heading_of nodes sheets owners.now) (lists.instructions steps.now) }
    ensures one_list { lists.OneList (heading_of nodes sheets owners.now) (lists.instructions steps.now) }
    ensures as_run { WritesAsRun }
    ensures runs { WrittenRuns (heading_of nodes sheets owners.now) (lists.instructions steps.now) }
{
    match writing::write(nodes, sheets, owners, steps, session) {
        Ok(n) => codes::code(8, n as u64, 0),
        Err(r) => codes::refusal_code(r),
    }
}

// Reads a session's header and all its steps, in words: how many there are, or a refusal, which writes nothing.
pub fn cusphewa_read(session: &[u8], steps: &mut [u32]) -> u64
    ensures steps_after { record { code = result; room = steps.new } ≡ told_call (lists.read_call session.now steps.old) }
    ensures decoded { outcome_in result ≡ as_told (lists.read_call session.now steps.old).outcome }
    ensures written_again { lists.ReadWritten session.now }
    ensures run { lists.ReadRun session.now }
    ensures agrees { Agrees session.now }
    ensures few { lists.FewSteps session.now }
{
    match listing::read(session, steps) {
        Ok(l) => codes::code(
            9,
            l.nodes as u64 * 4294967296 + l.sheets as u64 * 65536 + l.steps as u64,
            0,
        ),
        Err(r) => codes::refusal_code(r),
    }
}

// Where a session's owners stand, for the host: offset and size in one.
pub fn cusphewa_owners(session: &[u8]) -> u64
    ensures value { result ≡ part_code (lists.owners_part session.now) }
    ensures decoded { part_in result ≡ lists.owners_part session.now }
    ensures there { lists.OwnersThere session.now }
    ensures three_calls { lists.ThreeCalls session.now }
{
    match wire::read_header(session) {
        Some(header) => 2 * 4294967296 + header.sheets as u64,
        None => 0,
    }
}
