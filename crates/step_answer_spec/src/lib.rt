// What a stepper's call answers.
#![tactic(auto)]

ghost use Rattle.std.specs.Prelude.{◌≡◌};
ghost use Rattle.step_answer_spec.specs.declared.Failure.TheVariants.{Refused};

use image_spec::Refusal;

// The steps that were made, and the bytes of their events.
// (No `Default`: zeros are written out where nothing was made, so that clauses compute from the fields.)
#[derive(Clone, Copy, PartialEq, Eq, Debug)]
pub struct Shown {
    pub steps: u64,
    pub length: usize,
}

// A question of the image was answered with no; there is no state or start (14); or the start or the next step has no room (15).
#[derive(Clone, Copy, PartialEq, Eq, Debug)]
pub enum Failure {
    Refused(Refusal),
    NoState,
    NoRoom(Shown),
}

impl From<Refusal> for Failure {
    ghost from_gives = { λ question failure. failure ≡ Refused question };

    fn from(question: Refusal) -> Failure {
        Failure::Refused(question)
    }
}
