// The tag of a Let or an Invoke.
#![tactic(auto)]

ghost use Rattle.std.specs.Prelude.{◌≡◌, true, ◌≤◌};
ghost use Rattle.step_tags.specs.Tags.{has_tag, tag_at, tag_in};
ghost use Rattle.image_kinds.specs.Codes.{code_of};
ghost use Rattle.image_read_parts.specs.Recorded.{record_in};

use image_kinds::kinds::Kind;
use image_read_parts::identifier;
use image_read_parts::record::RecordAt;
use syntax::names::Identifier;

// Where the tag stands in the record.
// (`_` is an Invoke: callers have no other kind. The definition has two cases too, so eleven names more would say no more.)
fn tag_at(kind: Kind, w: usize) -> usize
    requires { w ≤ 4 }
    ensures { result ≡ tag_at w (code_of kind) }
{
    match kind {
        Kind::Let => 6 + (w + w),
        _ => 3 + w,
    }
}

// The tag of a Let or an Invoke.
pub fn tag_of(node: &RecordAt<'_>) -> Identifier
    requires { has_tag (code_of node.now.kind) ≡ true }
    ensures { result ≡ tag_in (record_in node.now) }
{
    identifier(
        &node.image,
        node.index,
        tag_at(node.kind, node.image.frame.id),
    )
}
