// The questions that are asked of each record alone: question 6, and the counts of question 7.
ghost use Rattle.std.specs.Prelude.{◌≡◌, ◌<◌, ◌&&◌, leb, drop};
ghost use Rattle.image_read_parts.specs.Standing.{head_of};
ghost use Rattle.image_spec.specs.Kinds.{clauses_of};
ghost use Rattle.scope_spec.specs.Flat.{all_records_lem, plain_record_lem, small_record_lem};
ghost use Rattle.scope_records.specs.Environments.{small_environment_lem};
ghost use Rattle.scope_records.specs.Tests.{test_of};
ghost use Rattle.image_directory.specs.Images.{records_of};
ghost use Rattle.image_read_parts.specs.Recorded.{record_in};
ghost use Rattle.image_kinds.specs.declared.kinds.Kind.TheVariants.{Create};

use image_directory::Frame;
use image_directory::image::Image;
use image_kinds::kinds::Kind;
use image_read_parts::byte;
use image_read_parts::record::RecordAt;
use image_shape::look;

// What is asked of each record alone. (A parameter of `all_records`, which walks for both: two walks would differ in one call, and a closure
// in its place would need a contract that ties it to the question's definition.)
#[derive(Clone, Copy)]
pub enum Alone {
    // Question 6: that it is no Substitute, and has no environment.
    Plain,
    // Question 7: that its counts are at most 32.
    Small,
}

// Question 6 of a record.
fn plain_record(node: &RecordAt<'_>) -> bool
    ensures { result ≡ plain_record_lem (record_in node.now) }
{
    match node.kind {
        Kind::Substitute => false,
        Kind::Create => byte(
            &node.image,
            node.index,
            Kind::Create.fixed(node.image.frame.id),
        ) == 0,
        // `_`: the kinds that question 6 does not speak of, of which eleven names would say no more.
        _ => true,
    }
}

// Has the environment of a Create few bindings, if there is one?
fn small_environment(node: &RecordAt<'_>) -> bool
    requires { node.now.kind ≡ Create }
    ensures { result ≡ small_environment_lem (record_in node.now) }
{
    let mark = Kind::Create.fixed(node.image.frame.id);
    byte(&node.image, node.index, mark) == 0
        || byte(&node.image, node.index, mark + 1) <= Frame::MAX_SOURCE_COUNT
}

// The counts in a Create.
fn small_create(node: &RecordAt<'_>) -> bool
    requires { node.now.kind ≡ Create }
    ensures { result ≡ (small_environment_lem (record_in node.now) && leb (clauses_of (record_in node.now)) 32) }
{
    let clauses = look(&node.image, node.index).unwrap().clauses;
    small_environment(node) && clauses <= Frame::MAX_SOURCE_COUNT
}

// The counts in a record (question 7).
fn small_record(node: &RecordAt<'_>) -> bool
    ensures { result ≡ small_record_lem (record_in node.now) }
{
    match node.kind {
        Kind::Literal | Kind::Op | Kind::IfC | Kind::Print | Kind::Exit => true,
        Kind::Create => small_create(node),
        // `kind`: the kinds with one count, which stands right behind their fixed part.
        kind => byte(&node.image, node.index, kind.fixed(node.image.frame.id))
            <= Frame::MAX_SOURCE_COUNT,
    }
}

// Does the record at index i pass?
fn passes(image: &Image<'_>, i: usize, question: Alone) -> bool
    requires { i < image.now.frame.count }
    ensures { result ≡ test_of question (head_of (drop i (records_of image.now))) }
{
    let kind = look(image, i).unwrap().kind;
    let node = RecordAt {
        image: *image,
        index: i,
        kind,
    };
    match question {
        Alone::Plain => plain_record(&node),
        Alone::Small => small_record(&node),
    }
}

// Does every record of the image pass?
pub fn all_records(image: &Image<'_>, question: Alone) -> bool
    ensures { result ≡ all_records_lem (test_of question) (records_of image.now) }
{
    (0..image.frame.count).all(|i| passes(image, i, question))
}
