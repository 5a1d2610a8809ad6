// The calls on a session, exported to C: the answer, the part shown, writing and reading. The calls are the library's; here they get their symbols.
#![tactic(auto)]

ghost use Rattle.std.specs.Prelude.{◌≡◌};
ghost use Rattle.rules.specs.Causes.{WhyFailed};
ghost use Rattle.rules.specs.Ordered.{AlwaysOrdered};
ghost use Rattle.rules.specs.Agreeing.{Agrees, WritesAsRun, WrittenRuns};
ghost use Rattle.rules.specs.Calls as calls;
ghost use Rattle.rules.specs.Writing as lists;
ghost use Rattle.codes.specs.Codes.{answer_code, told_call};
ghost use Rattle.codes.specs.Decoding.{answer_of, outcome_in, as_told, part_in};
ghost use Rattle.cusphewa.specs.Codes.{part_code};
ghost use Rattle.writing.specs.Meaning.{heading_of};

// The answer of a call on a session, for the host.
#[unsafe(no_mangle)]
pub extern "C" fn cusphewa_answer(session: &[u8]) -> u64
    ensures value { result ≡ answer_code (calls.reply session.now) }
    ensures decoded { answer_of result ≡ calls.reply session.now }
    ensures why_failed { WhyFailed }
    ensures ordered { AlwaysOrdered }
{
    cusphewa::cusphewa_answer(session)
}

// The part shown, for the host: its offset and its size in one.
#[unsafe(no_mangle)]
pub extern "C" fn cusphewa_shown(session: &[u8]) -> u64
    ensures value { result ≡ part_code (calls.part session.now) }
    ensures decoded { part_in result ≡ calls.part session.now }
{
    cusphewa::cusphewa_shown(session)
}

// Writes the session of a header and a list of steps in words, four to a step: how many bytes it has, or a refusal, which writes nothing.
#[unsafe(no_mangle)]
pub extern "C" fn cusphewa_write(
    nodes: usize,
    sheets: usize,
    owners: &[u8],
    steps: &[u32],
    session: &mut [u8],
) -> u64
    ensures session_after { record { code = result; room = session.new }
        ≡ told_call (lists.write_call (heading_of nodes sheets owners.now) (lists.instructions steps.now) session.old) }
    ensures decoded { outcome_in result
        ≡ as_told (lists.write_call (heading_of nodes sheets owners.now) (lists.instructions steps.now) session.old).outcome }
    ensures read_again { lists.WrittenRead (heading_of nodes sheets owners.now) (lists.instructions steps.now) }
    ensures words_again { lists.WordsAgain (heading_of nodes sheets owners.now) steps.now }
    ensures one_writing { lists.OneWriting (heading_of nodes sheets owners.now) (lists.instructions steps.now) }
    ensures one_list { lists.OneList (heading_of nodes sheets owners.now) (lists.instructions steps.now) }
    ensures as_run { WritesAsRun }
    ensures runs { WrittenRuns (heading_of nodes sheets owners.now) (lists.instructions steps.now) }
{
    cusphewa::cusphewa_write(nodes, sheets, owners, steps, session)
}

// Reads a session's header and all its steps, in words: how many there are, or a refusal, which writes nothing.
#[unsafe(no_mangle)]
pub extern "C" fn cusphewa_read(session: &[u8], steps: &mut [u32]) -> u64
    ensures steps_after { record { code = result; room = steps.new } ≡ told_call (lists.read_call session.now steps.old) }
    ensures decoded { outcome_in result ≡ as_told (lists.read_call session.now steps.old).outcome }
    ensures written_again { lists.ReadWritten session.now }
    ensures run { lists.ReadRun session.now }
    ensures agrees { Agrees session.now }
    ensures few { lists.FewSteps session.now }
{
    cusphewa::cusphewa_read(session, steps)
}

// Where a session's owners stand, for the host: offset and size in one.
#[unsafe(no_mangle)]
pub extern "C" fn cusphewa_owners(session: &[u8]) -> u64
    ensures value { result ≡ part_code (lists.owners_part session.now) }
    ensures decoded { part_in result ≡ lists.owners_part session.now }
    ensures there { lists.OwnersThere session.now }
    ensures three_calls { lists.ThreeCalls session.now }
{
    cusphewa::cusphewa_owners(session)
}
