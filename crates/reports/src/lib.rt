// The report call, in a module of its own: it asks nothing of a run but the report, so the compiler's loop over the commands carries no answer along.
#![tactic(auto)]

ghost use Rattle.std.specs.Prelude.{◌≡◌, ◌<◌, ◌≤◌, length};
ghost use Rattle.rules.specs.Demand3.{SessionDemand3};
ghost use Rattle.rules.specs.Neighbours.{SessionNeighbours};
ghost use Rattle.rules.specs.Changes.{SessionChanges};
ghost use Rattle.rules.specs.Eight.{NeverEight};
ghost use Rattle.rules.specs.Counter.{AlwaysAddsMarks};
ghost use Rattle.rules.specs.Sizes.{min_buffer};
ghost use Rattle.rules.specs.Report as rules;

use limits::MIN_BUFFER;
use refusals::Refusal;
use text::Writer;

// The whole-session call, for the host: the report's length, or 0 where the buffer is too short, which is then untouched.
pub fn cusphewa_report(session: &[u8], report: &mut [u8]) -> usize
    ensures report_after { record { size = result; buffer = report.new } ≡ rules.report_call session.now report.old }
    ensures demand3 { SessionDemand3 session.now }
    ensures neighbours { SessionNeighbours session.now }
    ensures changes { SessionChanges session.now }
    ensures eight { NeverEight session.now }
    ensures marks { AlwaysAddsMarks }
    ensures fits { result ≤ length report.old }
    ensures only_12 { result ≡ 0 → length report.old < min_buffer }
{
    if report.len() < MIN_BUFFER {
        return 0;
    }
    match wire::read_header(session) {
        Some(header) => session::run(session, report, header).size,
        None => {
            let mut out = Writer { buf: report, at: 0 };
            out.refusal_line(0, u8::from(Refusal::BadHeader));
            out.at
        }
    }
}
