// The state after a session's accepted commands, as text into a lent room: the call that shows it.
#![tactic(auto)]

ghost use Rattle.std.specs.Prelude.{◌≡◌, ◌≤◌, length, Some};
ghost use Rattle.rules.specs.Sizes.{max_state};
ghost use Rattle.rules.specs.Showing.{GrantedAlone, state_text, state_call};
ghost use Rattle.codes.specs.Codes.{told_call, fitted, Small};
ghost use Rattle.codes.specs.Decoding.{outcome_in};
ghost use Rattle.wire.specs.Meaning.{opened};
ghost use Rattle.wire.specs.Refusing.{outcome_of};
ghost use Rattle.state.specs.View.{shown_by};
ghost use Rattle.tally.specs.Figures.{figures};
ghost use Rattle.showing.specs.Shows.{Shows};
ghost use Rattle.states.specs.Short.{ShortText};

use limits::MAX_STATE;
use refusals::{Refusal, Refused};
use state::Session;
use tally::Tally;
use wire::Header;

// The state's text, if it fits. Any does in so much room; else it is asked first how long it is, which the writer tells where it is lent none.
fn fill(room: &mut [u8], x: &Session, tally: Tally) -> Result<usize, Refused>
    requires { Shows x.now }
    ensures room_after { record { outcome = outcome_of result; room = room.new } ≡ fitted (state_text (shown_by x.now (figures tally))) room.old }
    ensures small { Small result }
    ensures short { length (state_text (shown_by x.now (figures tally))) ≤ max_state }
{
    if room.len() < MAX_STATE {
        let mut none = [0u8; 0];
        let n = showing::text(&mut none, x, tally);
        if room.len() < n {
            return Err(Refusal::NoRoom.at(n));
        }
    }
    Ok(showing::text(room, x, tally))
}

// Carries a session with this header through, and writes the state that it leads to.
fn show(session: &[u8], room: &mut [u8], header: Header) -> Result<usize, Refused>
    requires { opened session.now ≡ Some header }
    ensures room_after { record { outcome = outcome_of result; room = room.new } ≡ state_call session.now room.old }
    ensures small { Small result }
    ensures short { ShortText session.now }
{
    // The six arrays stand wherever a session is made: a function can't hand them back without copying 18 KB.
    let mut bytes = [0u8; Session::BYTES];
    let mut sets = [0u64; Session::SETS];
    let mut queues = [0u64; Session::QUEUES];
    let mut value = [0u32; Session::COPIES];
    let mut seen = [0u16; Session::COPIES];
    let mut sheets = [0u32; Session::STORE];
    let end = 2 + header.sheets as usize;
    let mut x = Session::fresh(
        &mut bytes,
        &mut sets,
        &mut queues,
        &mut value,
        &mut seen,
        &mut sheets,
        header.nodes,
        &session[2..end],
    );
    let r = session::walk(session, &mut x);
    fill(room, &x, r.tally)
}

// Writes the state after the session's accepted commands, as text: how many bytes it has, or a refusal, which writes nothing.
pub fn cusphewa_state(session: &[u8], room: &mut [u8]) -> u64
    ensures room_after { record { code = result; room = room.new } ≡ told_call (state_call session.now room.old) }
    ensures decoded { outcome_in result ≡ (state_call session.now room.old).outcome }
    ensures short { ShortText session.now }
    ensures granted { GrantedAlone }
{
    match wire::read_header(session) {
        Some(header) => codes::placed_code(show(session, room, header)),
        None => codes::refusal_code(Refusal::BadHeader.at(0)),
    }
}
