// The rows of the records of an opened image: the IDs of a list, of a Substitute's pairs, and of a Create's environment.
ghost use Rattle.std.specs.Prelude.{◌≡◌, true, ◌<◌, length};
ghost use Rattle.syntax.specs.Context.{ids};
ghost use Rattle.model.specs.Linear.{targets, sources};
ghost use Rattle.image_spec.specs.Kinds.{tail_bytes};
ghost use Rattle.image_read_parts.specs.Standing.{Stands};
ghost use Rattle.image_read_parts.specs.Parts.{list_of};
ghost use Rattle.image_read_nodes.specs.Nodes.{has_list};
ghost use Rattle.step_rows.specs.Rows.{ids_of};
ghost use Rattle.step_rows.specs.RecordRows.{bytes_of, AnyBytes, counted_places_lem, pairs_of, environment_of, EnvironmentRow};
ghost use Rattle.image_kinds.specs.Codes.{code_of};
ghost use Rattle.image_read_parts.specs.Recorded.{record_in};
ghost use Rattle.image_kinds.specs.declared.kinds.Kind.TheVariants.{Substitute, Create};

use crate::places::Places;
use crate::row::Row;
use image_read_nodes::list_at;
use image_read_parts::offset;
use image_read_parts::record::RecordAt;

// The places behind the count at a place.
// `bytes` and `at`: the image's, and a place that the caller worked out from the record; what they give is the one value.
fn counted(bytes: &[u8], at: usize, stride: usize, offset: usize, width: usize) -> Places
    requires { at < length bytes.now }
    ensures { result ≡ counted_places_lem bytes.now at stride offset width }
{
    Places {
        from: at + 1,
        stride,
        offset,
        width,
        len: usize::from(bytes[at]),
    }
}

// Where the tail of a record begins: a Substitute's pairs, and the byte that says whether a Create has an environment.
// (No `list_at`: it promises a list, which neither record has there, and asks for a kind that has one.)
fn tail_at(node: &RecordAt<'_>) -> usize
    ensures { Stands bytes_of AnyBytes node.now.image.bytes.now result (tail_bytes node.now.image.frame.id (record_in node.now)) }
{
    let image = &node.image;
    offset(image, node.index) + node.kind.fixed(image.frame.id)
}

// The IDs of the list of a record. (How many bytes a binding has, and below a pair, is written out: the proofs go by computing, and a function's answer
// would be an equation to rewrite by.)
// (`&*`: lent again, for this call: here, where a lifetime is named, the borrow checker passes no parameter on at a shorter one.)
pub fn list_row<'a>(node: &RecordAt<'a>) -> Row<'a>
    requires { has_list (code_of node.now.kind) ≡ true }
    ensures { ids_of result ≡ (ids (list_of (record_in node.now))) }
{
    let w = node.image.frame.id;
    let list = list_at(&*node);
    Row {
        bytes: node.image.bytes,
        places: counted(node.image.bytes, list.start, 6 + (w + w), 2, w),
    }
}

// The IDs that a Substitute gives. (Beside those that it takes: each function promises its own list of the pairs; one would take the offset, and say of
// each which list it is.)
pub fn target_row<'a>(node: &RecordAt<'a>) -> Row<'a>
    requires { node.now.kind ≡ Substitute }
    ensures { ids_of result ≡ (targets (pairs_of (record_in node.now))) }
{
    let w = node.image.frame.id;
    let at = tail_at(node);
    Row {
        bytes: node.image.bytes,
        places: counted(node.image.bytes, at, 8 + (w + (w + w)), 2, w),
    }
}

// The IDs that a Substitute takes.
pub fn source_row<'a>(node: &RecordAt<'a>) -> Row<'a>
    requires { node.now.kind ≡ Substitute }
    ensures { ids_of result ≡ (sources (pairs_of (record_in node.now))) }
{
    let w = node.image.frame.id;
    let at = tail_at(node);
    Row {
        bytes: node.image.bytes,
        places: counted(node.image.bytes, at, 8 + (w + (w + w)), 8 + (w + w), w),
    }
}

// The IDs of the environment of a Create, if it has one. (An early return, as in `image_read_nodes::second`: the count is read only where the mark is.)
pub fn environment_row<'a>(node: &RecordAt<'a>) -> Option<Row<'a>>
    requires { node.now.kind ≡ Create }
    ensures { EnvironmentRow result (environment_of (record_in node.now)) }
{
    let w = node.image.frame.id;
    let at = tail_at(node);
    if node.image.bytes[at] == 0 {
        return None;
    }
    Some(Row {
        bytes: node.image.bytes,
        places: counted(node.image.bytes, at + 1, 6 + (w + w), 2, w),
    })
}
