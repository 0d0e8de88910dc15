// A Substitute, where the context differs from the wanted list.
ghost use Rattle.std.specs.Prelude.{◌≡◌, ◌+◌, ◌<◌, ◌^◌, [], ◌∷◌, ◌++◌};
ghost use Rattle.image_spec.specs.Records.{record_bytes, substitute};
ghost use Rattle.image_write_parts.specs.Written.{Wrote};
ghost use Rattle.syntax_substitution.specs.Pairs.{pairs_of};
ghost use Rattle.pass_work_spec.specs.Work.{bindings};
ghost use Rattle.pass_context.specs.Holding.{work_of};
ghost use Rattle.syntax.specs.Arrays.{context_of};
ghost use Rattle.pass_step_spec.specs.Steps.{arranged};
ghost use Rattle.pass_arrange.specs.Joined.{joined};
ghost use Rattle.pass_step.specs.Stepping.{RoomAt};
ghost use Rattle.pass_step.specs.Outputs.{ArrangesIn};
ghost use Rattle.image_write_directory.specs.Outputs.{so_far};

use image_write_directory::output::{Output, note};
use image_write_parts::writer::Writer;
use image_write_records::lists::{put_pair, put_substitute};
use pass_context::Held;
use syntax::context::{ContextBinding, TypingContext};
use syntax_substitution::{FlatPair, Substitution};

// What is kept stays under its names.
// `right`, here and below, is the answer of the Rust's `if context == context_rearrange`; the lists are there whatever it is.
// (Each asks `right` first, here and below: no list is made or handed on where nothing is written.)
pub fn arrange_kept(right: bool, kept: Held, output: &mut Output<'_, '_>)
    requires { RoomAt (so_far output.old) }
    ensures { ArrangesIn output.old output.new (arranged right (bindings (work_of kept)) (bindings (work_of kept))) }
{
    if right {
        return;
    }
    let none = TypingContext::empty();
    arrange(right, false, none, none, kept, output);
}

// The context becomes the targets.
// `targets` and `wanted`, here and below: the one is the other with fresh names, made by the statement.
// (No struct of both: each of four callers would make one for one call, and `arrange` would take it apart.)
pub fn arrange_args(
    right: bool,
    targets: TypingContext,
    wanted: TypingContext,
    output: &mut Output<'_, '_>,
)
    requires { (targets.len ≡ wanted.len) × RoomAt (so_far output.old) }
    ensures { ArrangesIn output.old output.new (arranged right (context_of targets) (context_of wanted)) }
{
    if right {
        return;
    }
    let none = Held::empty();
    arrange(right, true, targets, wanted, none, output);
}

// The targets, and behind them the closure under its name.
pub fn arrange_closure(
    right: bool,
    targets: TypingContext,
    wanted: TypingContext,
    closure: ContextBinding,
    output: &mut Output<'_, '_>,
)
    requires { (targets.len ≡ wanted.len) × RoomAt (so_far output.old) }
    ensures { ArrangesIn output.old output.new (arranged right (context_of targets ++ (closure ∷ [])) (context_of wanted ++ (closure ∷ []))) }
{
    if right {
        return;
    }
    let last = Held::empty().own(0, closure);
    arrange(right, true, targets, wanted, last, output);
}

// What is kept, and behind it one more.
pub fn arrange_one(
    right: bool,
    kept: Held,
    target: ContextBinding,
    wanted: ContextBinding,
    output: &mut Output<'_, '_>,
)
    requires { RoomAt (so_far output.old) }
    ensures { ArrangesIn output.old output.new (arranged right (bindings (work_of kept) ++ (target ∷ [])) (bindings (work_of kept) ++ (wanted ∷ []))) }
{
    if right {
        return;
    }
    let targets = TypingContext::empty().push(target);
    let sources = TypingContext::empty().push(wanted);
    arrange(right, false, targets, sources, kept, output);
}

// The record of a Substitute. (Its pairs are lent: by value they would be copied, decision 52.)
fn put(writer: &mut Writer<'_>, all: &Substitution)
    requires { writer.old.at + 4098 < 2 ^ 64 }
    ensures { Wrote writer.old writer.new (record_bytes writer.old.id (substitute (pairs_of all.now))) }
{
    put_substitute(writer, all.len);
    for pair in &all.pairs[..all.len] {
        put_pair(writer, *pair);
    }
}

// The targets before what is kept, or behind it: a yes or no, for both lists are there and only their order is asked.
pub fn arrange(
    right: bool,
    targets_first: bool,
    targets: TypingContext,
    wanted: TypingContext,
    kept: Held,
    output: &mut Output<'_, '_>,
)
    requires { (targets.len ≡ wanted.len) × RoomAt (so_far output.old) }
    ensures { ArrangesIn output.old output.new (arranged right (joined targets_first (context_of targets) (bindings (work_of kept))) (joined targets_first (context_of wanted) (bindings (work_of kept)))) }
{
    if right {
        return;
    }
    let (kept_at, targets_at) = if targets_first {
        (targets.len, 0)
    } else {
        (0, kept.len)
    };
    let front = kept_at + targets_at;
    let n = targets.len + kept.len;
    let none = FlatPair::empty();
    let mut all = Substitution {
        pairs: [none; Substitution::MAX],
        len: n,
    };
    // (By places, as `Held` says: `all` has ghost fields.)
    for i in 0..n {
        all.pairs[i] = if (i < front) == targets_first {
            let at = i - targets_at;
            let target = targets.bindings[at];
            let b = wanted.bindings[at];
            FlatPair::of(target, b)
        } else {
            let b = kept.entries[i - kept_at].flat_binding();
            FlatPair::of(b, b)
        };
    }
    let start = output.writer.at;
    put(&mut output.writer, &all);
    note(output, start);
}
