// The state call, exported to C. The call is the library's; here it gets its symbol.
#![tactic(auto)]

ghost use Rattle.std.specs.Prelude.{◌≡◌};
ghost use Rattle.rules.specs.Showing.{GrantedAlone, state_call};
ghost use Rattle.codes.specs.Codes.{told_call};
ghost use Rattle.codes.specs.Decoding.{outcome_in};
ghost use Rattle.states.specs.Short.{ShortText};

// Writes the state after the session's accepted commands, as text: how many bytes it has, or a refusal, which writes nothing.
#[unsafe(no_mangle)]
pub extern "C" fn cusphewa_state(session: &[u8], room: &mut [u8]) -> u64
    ensures room_after { record { code = result; room = room.new } ≡ told_call (state_call session.now room.old) }
    ensures decoded { outcome_in result ≡ (state_call session.now room.old).outcome }
    ensures short { ShortText session.now }
    ensures granted { GrantedAlone }
{
    states::cusphewa_state(session, room)
}
