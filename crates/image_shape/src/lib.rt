// Question 5: the walk over an image's records, in pre-order, with a bound on the depth.
#![tactic(auto)]

ghost use Rattle.std.specs.Prelude.{◌≡◌, ◌≤◌, length, drop};
ghost use Rattle.image_spec.specs.Parse.{times};
ghost use Rattle.image_spec.specs.Shape.{stmt, clauses, one_def, definitions};
ghost use Rattle.image_spec.specs.Image.{is_some};
ghost use Rattle.image_fields.specs.Found.{stop};
ghost use Rattle.image_shape.specs.Nodes.{node_of, IsHead, head_parser, parts_at};
ghost use Rattle.image_directory.specs.Images.{records_of};
ghost use Rattle.image_kinds.specs.Codes.{code_of};

use image_directory::image::{Image, slot_of};
use image_kinds::kinds::Kind;
use image_spec::Layout;

// A record as the walk sees it: its kind, and the count of its clauses as a byte of the image has it. (A value of its own beside `Parts`: it is of any
// record. `Parts` is of a statement, with the counts that the walk goes on by, and `Follows`, of a crate above, is of a record that surely is there.)
#[derive(Clone, Copy, PartialEq, Eq)]
pub struct Node {
    pub kind: Kind,
    pub clauses: u8,
}

// The record at place i; none past the last.
// (`image` and `i`: any index is asked, also past the last, so it is no `RecordAt`.)
pub fn look(image: &Image<'_>, i: usize) -> Option<Node>
    ensures { result ≡ node_of (drop i (records_of image.now)) }
{
    if image.frame.count <= i {
        return None;
    }
    let slot = slot_of(image, i);
    let kind = Kind::try_from(image.bytes[slot.offset]).unwrap();
    // `_`: the kinds without clauses, of which eleven names would say no more.
    let clauses = match kind {
        Kind::Switch | Kind::Create => image.bytes[slot.offset + slot.size - 1],
        _ => 0,
    };
    Some(Node { kind, clauses })
}

// Past the record of a definition, or of a clause. (`wanted` is a value to compare with, and chooses no code.)
fn head(image: &Image<'_>, wanted: Kind, at: usize) -> Option<usize>
    requires { IsHead (code_of wanted) }
    ensures { result ≡ stop (head_parser (code_of wanted)) (records_of image.now) at }
{
    (look(image, at)?.kind == wanted).then_some(at + 1)
}

// What follows the record of a statement: clauses, then bodies, from place `next` on.
#[derive(Clone, Copy, PartialEq, Eq)]
pub struct Parts {
    pub clauses: usize,
    pub bodies: usize,
    pub next: usize,
}

fn statement_parts(image: &Image<'_>, at: usize) -> Option<Parts>
    ensures { result ≡ parts_at (records_of image.now) at }
{
    let node = look(image, at)?;
    // `_`: each kind of a statement, and `bodies` tells them apart.
    match node.kind {
        Kind::Definition | Kind::Clause => None,
        _ => Some(Parts {
            clauses: usize::from(node.clauses),
            bodies: node.kind.bodies(),
            next: at + 1,
        }),
    }
}

// Past a statement of depth at most `depth`.
// (`image` and `depth`: one image for the whole walk, and a bound that falls at each statement.)
#[cycle(skip_bodies_skip_clauses_statement)]
pub fn statement(image: &Image<'_>, depth: usize, at: usize) -> Option<usize>
    ensures { result ≡ stop (stmt depth) (records_of image.now) at }
{
    if depth == 0 {
        return None;
    }
    let parts = statement_parts(image, at)?;
    let bodies = skip_clauses(image, depth - 1, parts.clauses, parts.next)?;
    skip_bodies(image, depth - 1, parts.bodies, bodies)
}

// Past n statements, of depth at most `depth` each. (Three functions for bodies, clauses and definitions: what each item is would be a parameter,
// by an enum that is only there for it, and only two of the three are in the cycle in which the depth falls.)
// (`depth`, `n` and `at`, here and below: the bound is the walk's, n comes from the record above, and n of them may take more records.)
#[cycle(skip_bodies_skip_clauses_statement)]
fn skip_bodies(image: &Image<'_>, depth: usize, n: usize, at: usize) -> Option<usize>
    requires { at ≤ length (records_of image.now) }
    ensures { result ≡ stop (times n (stmt depth)) (records_of image.now) at }
{
    let mut here = at;
    for _ in 0..n {
        here = statement(image, depth, here)?;
    }
    Some(here)
}

// Past n clauses, with bodies of depth at most `depth` each.
#[cycle(skip_bodies_skip_clauses_statement)]
fn skip_clauses(image: &Image<'_>, depth: usize, n: usize, at: usize) -> Option<usize>
    requires { at ≤ length (records_of image.now) }
    ensures { result ≡ stop (clauses (stmt depth) n) (records_of image.now) at }
{
    let mut here = at;
    for _ in 0..n {
        let body = head(image, Kind::Clause, here)?;
        here = statement(image, depth, body)?;
    }
    Some(here)
}

// Past n definitions, from the first record on.
fn skip_definitions(image: &Image<'_>, n: usize) -> Option<usize>
    ensures { result ≡ stop (times n one_def) (records_of image.now) 0 }
{
    let mut here = 0;
    for _ in 0..n {
        let body = head(image, Kind::Definition, here)?;
        here = statement(image, Layout::MAX_DEPTH, body)?;
    }
    Some(here)
}

// Question 5: are the records of the image d definitions, and nothing more?
pub fn shaped(image: &Image<'_>, defs: usize) -> bool
    ensures { result ≡ is_some (definitions defs (records_of image.now)) }
{
    skip_definitions(image, defs) == Some(image.frame.count)
}
