// The answers call, exported to C. The call is the library's; here it gets its symbol.
#![tactic(auto)]

ghost use Rattle.std.specs.Prelude.{◌≡◌};
ghost use Rattle.rules.specs.Answers.{EachPrefix, FewAnswers};
ghost use Rattle.codes.specs.Codes.{told_call};
ghost use Rattle.codes.specs.Decoding.{outcome_in};
ghost use Rattle.answers.specs.Meaning.{answers_call, AnswersAgain};

// Lists every command's answer, as cusphewa_answer's numbers, up to the first refusal: how many there are, or a refusal, which writes nothing.
#[unsafe(no_mangle)]
pub extern "C" fn cusphewa_answers(session: &[u8], list: &mut [u64]) -> u64
    ensures list_after { record { code = result; room = list.new } ≡ told_call (answers_call session.now list.old) }
    ensures decoded { outcome_in result ≡ (answers_call session.now list.old).outcome }
    ensures answers_again { AnswersAgain session.now result list.new }
    ensures prefixes { EachPrefix session.now }
    ensures few { FewAnswers session.now }
{
    answers::cusphewa_answers(session, list)
}
