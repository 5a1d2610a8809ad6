// The run over a whole session.
#![tactic(auto)]

ghost use Rattle.std.specs.Prelude.{◌≡◌, ◌+◌, ◌*◌, ◌≤◌, ◌<◌, length, Some, None};
ghost use Rattle.rules.specs.Sizes.{max_session, min_buffer};
ghost use Rattle.rules.specs.Report as rules;
ghost use Rattle.text.specs.Writes.{Writes};
ghost use Rattle.rows.specs.Rows.{Ordered};
ghost use Rattle.state.specs.View.{no_tally, tables};
ghost use Rattle.state.specs.Fit.{ReadyIn, Rising, Fit, Table};
ghost use Rattle.state.specs.Lent.{Same};
ghost use Rattle.wire.specs.Meaning.{opened};
ghost use Rattle.tally.specs.Figures.{figures};
ghost use Rattle.session.specs.Meaning.{stop_line};
ghost use Rattle.session.specs.Stepping.{StepsAt};
ghost use Rattle.session.specs.Looping.{Begins};
ghost use Rattle.session.specs.Carried.{Within, ShownOf, Carried, filled, lines_of, Answered};

use limits::MIN_BUFFER;
use refusals::{Refusal, Refused};
use state::{Answer, Cause, Session, Verdict};
use tally::Tally;
use text::Writer;
use wire::Header;

// An accepted command's answer, as a call gives it.
#[derive(Clone, Copy)]
pub enum Reply {
    Accepted,
    Content(u32),
    Took(u8, Verdict),
    Commits,
    SecondRun,
}

impl From<Answer> for Reply {
    ghost use Rattle.session.specs.Meaning.{reply_to};

    ghost from_gives = { λ a r. r ≡ reply_to a };

    fn from(a: Answer) -> Reply {
        match a {
            Answer::Accepted => Reply::Accepted,
            Answer::Content(v) => Reply::Content(v),
            // Taken apart to the last field: of a verdict that is handed on whole the bytes between its fields go along too, and so with every answer of a run.
            Answer::Took(t, Verdict::Valid) => Reply::Took(t, Verdict::Valid),
            Answer::Took(t, Verdict::Invalid(cause)) => Reply::Took(
                t,
                Verdict::Invalid(Cause {
                    sheet: cause.sheet,
                    rule: cause.rule,
                }),
            ),
            Answer::Commits => Reply::Commits,
            Answer::CommitsLater => Reply::Commits,
            Answer::SecondRun => Reply::SecondRun,
            Answer::Recommits => Reply::Accepted,
        }
    }
}

// What the walk over a session's commands comes to, beside the state: the tally, the last accepted command's answer, if there was one, and the refusal
// that it stops at, if it does, with its offset.
#[derive(Clone, Copy)]
pub struct Walked {
    pub tally: Tally,
    pub last: Option<Answer>,
    pub stop: Result<(), Refused>,
}

// What a run comes to: the report's length, the last accepted command's answer, the stop, and how many bytes are shown of what it stops at.
#[derive(Clone, Copy)]
pub struct Ended {
    pub size: usize,
    pub last: Option<Reply>,
    pub stop: Result<(), Refused>,
    pub shown: usize,
}

// R p c, after a refusal only.
fn stop_line(out: &mut Writer, stop: Result<(), Refused>)
    requires { (out.old.at + 24 ≤ length out.old.buf.now) × Within max_session stop }
    ensures { Writes out.old out.new (stop_line stop) 24 }
{
    if let Err(r) = stop {
        out.refusal_line(r.place as u32, u8::from(r.why));
    }
}

// The report of a walk: the state's lines, of at most 867 + 35 * m bytes, then the stop's, of at most 24. A buffer that is too short for a
// report is left alone.
fn report_lines(report: &mut [u8], x: &Session, r: Walked) -> usize
    requires { Ordered x.now.bytes.now x.now.queues.now × (x.now.m < 65536) × Table 2 x.now.m x.now.sheets.now × (891 + 35 * x.now.m ≤ min_buffer)
        × Within max_session r.stop }
    ensures report_after { record { size = result; buffer = report.new }
        ≡ filled (lines_of x.now.m x.now.bytes.now x.now.queues.now x.now.sheets.now r) report.old }
    ensures fits { result ≤ length report.old }
{
    if report.len() < MIN_BUFFER {
        return 0;
    }
    let mut out = Writer { buf: report, at: 0 };
    rows::state_lines(&mut out, x, r.tally);
    stop_line(&mut out, r.stop);
    out.at
}

// The step at an offset of a session, if one is left: its answer, and how many bytes it has.
pub fn step_at(
    session: &[u8],
    at: usize,
    x: &mut Session,
) -> Result<Option<(Answer, usize)>, Refused>
    requires { (at ≤ length session.now) × ReadyIn x.old × Rising x.old.m x.old.sheets.now × Fit x.old.m (tables x.old) }
    ensures same { Same x.old x.new }
    ensures stepped { StepsAt session.now at x.old x.new result }
{
    match wire::read_next(&session[at..]) {
        Ok(None) => Ok(None),
        Ok(Some((c, z))) => match engine::step(x, c) {
            Ok(a) => Ok(Some((a, z))),
            Err(why) => Err(why.at(at)),
        },
        Err(unread) => Err(Refusal::from(unread).at(at)),
    }
}

// Carries a session's fresh state through its steps to the end or the first refusal. The tally and the last answer are kept on the way.
fn steps(
    session: &[u8],
    x: &mut Session,
    tally: &mut Tally,
    last: &mut Option<Answer>,
) -> Result<(), Refused>
    requires { Begins session.now x.old.m (tables x.old) × (figures tally.old ≡ no_tally) × (last.old ≡ None) }
    ensures same { Same x.old x.new }
    ensures carried { Carried session.now x.new.m (tables x.new) (record { tally = tally.new; last = last.new; stop = result }) }
{
    let mut at = 2 + x.m;
    // Kept: an offset that goes on by the command's size.
    while let Some((a, z)) = step_at(session, at, x)? {
        *tally = tally.advanced(a);
        *last = Some(a);
        at += z;
    }
    Ok(())
}

// The same, with all that it comes to.
pub fn walk(session: &[u8], x: &mut Session) -> Walked
    requires { Begins session.now x.old.m (tables x.old) }
    ensures same { Same x.old x.new }
    ensures carried { Carried session.now x.new.m (tables x.new) result }
{
    let mut tally = Tally::new();
    let mut last = None;
    let stop = steps(session, x, &mut tally, &mut last);
    Walked { tally, last, stop }
}

// How many bytes are shown of what a walk stops at, asked once, at the end.
fn shown_at(session: &[u8], stop: Result<(), Refused>) -> usize
    requires { Within (length session.now) stop }
    ensures { ShownOf session.now stop result }
{
    match stop {
        Ok(()) => 0,
        Err(r) => wire::shown(&session[r.place..]),
    }
}

// Carries a session with this header through, and writes its report if it is lent room for one. The state's tables live here: for as many
// sheets as a session may have, of zeros, which `Session::fresh` makes the fresh state.
pub fn run(session: &[u8], report: &mut [u8], header: Header) -> Ended
    requires { opened session.now ≡ Some header }
    ensures answered { Answered session.now result }
    ensures report { record { size = result.size; buffer = report.new } ≡ rules.report_call session.now report.old }
    ensures fits { result.size ≤ length report.old }
{
    // The six arrays stand wherever a session is made: a function can't hand them back without copying 18 KB.
    let mut bytes = [0u8; Session::BYTES];
    let mut sets = [0u64; Session::SETS];
    let mut queues = [0u64; Session::QUEUES];
    let mut value = [0u32; Session::COPIES];
    let mut seen = [0u16; Session::COPIES];
    let mut sheets = [0u32; Session::STORE];
    let end = 2 + header.sheets as usize;
    let mut x = Session::fresh(
        &mut bytes,
        &mut sets,
        &mut queues,
        &mut value,
        &mut seen,
        &mut sheets,
        header.nodes,
        &session[2..end],
    );
    let r = walk(session, &mut x);
    let size = report_lines(report, &x, r);
    Ended {
        size,
        last: r.last.map(Reply::from),
        stop: r.stop,
        shown: shown_at(session, r.stop),
    }
}
