// The context at work, how many variables are in scope, and what is known on the way through a statement.
ghost use Rattle.std.specs.Prelude.{◌≡◌, ◌+◌, ◌<◌, [], ◌∷◌, ◌++◌};
ghost use Rattle.pass_work_spec.specs.Work.{own};
ghost use Rattle.pass_context.specs.Holding.{work_of, HoldsWork};

use pass_context::Held;
use syntax::context::ContextBinding;

// The context at work, and how many variables are in scope.
// (`source`, `free_vars` or one of its masks, and `here`: the image's, the check's and the walk's; most statements need one mask or none.)
// (`here`, or its `context`, and `output`: the context is each statement's own and is read, the output is one for all and is written.)
// (`start`, which each gives to `note`: the walk sets the writer's place back, so the end of the last record is not it.)
#[derive(Clone, Copy)]
pub struct Working {
    pub context: Held,
    pub in_scope: u8,
}

impl Working {
    // What a statement that binds one variable leaves: of its context what is kept, and the binder behind it, at the next place in scope.
    pub fn with(&self, kept: &Held, binder: ContextBinding) -> Working
        requires { (kept.now.len < 64) × (self.now.in_scope < 255) }
        ensures { HoldsWork result.context (work_of kept.now ++ (own self.now.in_scope binder ∷ [])) × (result.in_scope ≡ self.now.in_scope + 1) }
    {
        Working {
            context: kept.own(self.in_scope, binder),
            in_scope: self.in_scope + 1,
        }
    }
}

// What clauses begin with: their context, and whether the context is right already.
// (Not `image_open`'s `Opened`, which is an image. The name is the specs'.)
#[derive(Clone, Copy)]
pub struct Opened {
    pub context: Held,
    // The answer of the Rust's comparison. The context is there whatever it is.
    pub right: bool,
}
