// Fresh names, drawn only where the context differs from the wanted list.
ghost use Rattle.std.specs.Prelude.{◌+◌, ◌≤◌, ◌<◌, ◌^◌};
ghost use Rattle.syntax.specs.Arrays.{set_of, context_of, Freshens};
ghost use Rattle.model.specs.Rules.{freshen_unless_lem};

use syntax::context::{Freshened, TypingContext};
use syntax::names::VarId;
use syntax::sets::IdSet;

// A context that is right already keeps its names.
// (`right`, here, in `reserve` and in the statements: the answer of the Rust's comparison; lists and names are there whatever it is.)
pub fn freshen_unless(right: bool, args: TypingContext, clashes: IdSet, max_id: u32) -> Freshened
    requires { (clashes.len ≤ 64) × (max_id + 256 < 2 ^ 32) }
    ensures { Freshens result (freshen_unless_lem right (context_of args) (set_of clashes) max_id) }
{
    let max = VarId(max_id);
    if right {
        return Freshened {
            context: args,
            max_id: max,
        };
    }
    args.freshen(clashes, max)
}
