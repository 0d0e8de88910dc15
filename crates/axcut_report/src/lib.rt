// How the exported functions report: the number of an answer, and what they are lent to report in.
// `length` and `max_id`, `made` and `length`: the C interface lends them one by one.
#![tactic(auto)]

ghost use Rattle.std.specs.Prelude.{◌≡◌, []};
ghost use Rattle.image_spec.specs.Answers.{Reports, report};
ghost use Rattle.step_answer_spec.specs.Saying.{result_of};

use image_spec::{Accepted, Answer};
use step_answer_spec::{Failure, Shown};

// The number of an answer. Sets what the caller is lent to report in, zeros with a refusal.
pub fn tell(answer: Answer, length: &mut usize, max_id: &mut u32) -> u32
    ensures { Reports (report answer) result length.new max_id.new }
{
    let (number, accepted) = match answer {
        Ok(accepted) => (0, accepted),
        Err(question) => (
            question.number(),
            Accepted {
                length: 0,
                max_id: 0,
            },
        ),
    };
    *length = accepted.length;
    *max_id = accepted.max_id;
    number
}

// The number of a stepper's answer. (No `From`, here and for `tell`: `Result` and `u32` are the library's types, and of a `Failure` alone nobody asks the
// number. 14 and 15 have no discriminants: a question that refused has its own number, and no room brings what was made.)
pub fn number_of(said: Result<Shown, Failure>) -> u32
    ensures { result ≡ (result_of said [] []).number }
{
    match said {
        Ok(_) => 0,
        Err(Failure::Refused(question)) => question.number(),
        Err(Failure::NoState) => 14,
        Err(Failure::NoRoom(_)) => 15,
    }
}

// The number of a stepper's answer. Sets the steps that were made and the bytes of their events.
pub fn tell_steps(said: Result<Shown, Failure>, made: &mut u64, length: &mut usize) -> u32
    ensures { (result ≡ (result_of said [] []).number) × ((made.new ≡ (result_of said [] []).steps) × (length.new ≡ (result_of said [] []).length)) }
{
    let shown = match said {
        Ok(shown) | Err(Failure::NoRoom(shown)) => shown,
        Err(_) => Shown {
            steps: 0,
            length: 0,
        },
    };
    *made = shown.steps;
    *length = shown.length;
    number_of(said)
}
