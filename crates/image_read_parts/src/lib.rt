// Reads the parts of records: at a place of the bytes, and of a record of an image that was opened.
#![tactic(auto)]

pub mod record;

ghost use Rattle.std.specs.Prelude.{◌∷◌, [], ℕ, ◌+◌, ◌≤◌, length, ◌<◌};
ghost use Rattle.std.specs.Int.{w64};
ghost use Rattle.std.proofs.Common.{SFits};
ghost use Rattle.image_spec.specs.Fields.{newlines, integer_bytes, identifier_bytes, type_bytes, binding_bytes, IdentifierOk, TypeOk, BindingOk};
ghost use Rattle.image_spec.specs.Records.{record_bytes, RecordOk};
ghost use Rattle.image_read_parts.specs.Standing.{Stands, ReadsAs, IsCode, Room, RoomIn};
ghost use Rattle.image_read_parts.specs.Indexed.{record_of};

use image_directory::image::{Image, slot_of};
use image_fields::fields::Fields;
use image_fields::number;
use syntax::context::{Chirality, ContextBinding};
use syntax::names::{Identifier, Name, VarId};
use syntax::types::Ty;

// An identifier.
// (`fields` and `at`, here, below and in pass_records: bytes, and the places of many parts in them, which a record's kind tells.)
pub fn identifier_at(fields: &Fields<'_>, at: usize) -> Identifier
    requires { Room fields.now.id at (2 + fields.now.id) fields.now.bytes.now }
    ensures { ReadsAs (identifier_bytes fields.now.id) (IdentifierOk fields.now.id) fields.now.bytes.now at result }
{
    Identifier {
        name: Name(number(fields.bytes, at, 2) as u16),
        id: VarId(number(fields.bytes, at + 2, fields.id)),
    }
}

pub fn type_at(fields: &Fields<'_>, at: usize) -> Ty
    requires { Room fields.now.id at (3 + fields.now.id) fields.now.bytes.now }
    ensures { ReadsAs (type_bytes fields.now.id) (TypeOk fields.now.id) fields.now.bytes.now at result }
{
    if fields.bytes[at] == 0 {
        return Ty::I64;
    }
    let x = identifier_at(fields, at + 1);
    Ty::Decl(x)
}

// (No `TryFrom`: `bool` is the library's type. Whether the byte is a code is question 4's to ask.)
pub fn newline_of(b: u8) -> bool
    ensures { IsCode newlines b result }
{
    b != 0
}

// (That the chirality's byte is a code is not asked of a caller.)
pub fn binding_at(fields: &Fields<'_>, at: usize) -> ContextBinding
    requires { Room fields.now.id at (6 + (fields.now.id + fields.now.id)) fields.now.bytes.now }
    ensures { ReadsAs (binding_bytes fields.now.id) (BindingOk fields.now.id) fields.now.bytes.now at result }
{
    let w = fields.id;
    let var = identifier_at(fields, at);
    let chi = Chirality::try_from(fields.bytes[at + (2 + w)]).unwrap_or(Chirality::Ext);
    let ty = type_at(fields, at + (3 + w));
    ContextBinding { var, chi, ty }
}

// A signed number of eight bytes.
// (Of bytes alone: no ID is read, so no width is asked.)
pub fn integer_at(image: &[u8], at: usize) -> i64
    requires { at + 8 ≤ length image.now }
    ensures { ReadsAs integer_bytes (SFits w64) image.now at result }
{
    let bytes = image[at..at + 8].as_array().unwrap();
    i64::from_le_bytes(*bytes)
}

// Where the bytes of the record at index i begin.
// (`image` and `i`, here and below: who has only an index may ask; a `RecordAt` would ask a caller for the kind.)
pub fn offset(image: &Image<'_>, i: usize) -> usize
    requires { i < image.now.frame.count }
    ensures { Stands (record_bytes image.now.frame.id) (RecordOk image.now.frame.id) image.now.bytes.now result (record_of image.now i) }
{
    slot_of(image, i).offset
}

// The byte at a place of the record at index i: a code, a mark or a count.
pub fn byte(image: &Image<'_>, i: usize, at: usize) -> u8
    requires { (i < image.now.frame.count) × RoomIn image.now.frame i at 1 image.now.bytes.now }
    ensures { ReadsAs (λ (b : ℕ). b ∷ []) (λ _. Unit {0}) (record_bytes image.now.frame.id (record_of image.now i)) at result }
{
    image.bytes[offset(image, i) + at]
}

// The identifier at a place of the record at index i.
pub fn identifier(image: &Image<'_>, i: usize, at: usize) -> Identifier
    requires { (i < image.now.frame.count) × RoomIn image.now.frame i at (2 + image.now.frame.id) image.now.bytes.now }
    ensures { ReadsAs (identifier_bytes image.now.frame.id) (IdentifierOk image.now.frame.id) (record_bytes image.now.frame.id (record_of image.now i)) at result }
{
    identifier_at(&image.fields(), offset(image, i) + at)
}

// The type at a place of the record at index i.
// (This and `binding` are for who asks for one part; a record that is read whole is read from one `offset`, in pass_records.)
pub fn ty(image: &Image<'_>, i: usize, at: usize) -> Ty
    requires { (i < image.now.frame.count) × RoomIn image.now.frame i at (3 + image.now.frame.id) image.now.bytes.now }
    ensures { ReadsAs (type_bytes image.now.frame.id) (TypeOk image.now.frame.id) (record_bytes image.now.frame.id (record_of image.now i)) at result }
{
    type_at(&image.fields(), offset(image, i) + at)
}

// The binding at a place of the record at index i.
pub fn binding(image: &Image<'_>, i: usize, at: usize) -> ContextBinding
    requires { (i < image.now.frame.count) × RoomIn image.now.frame i at (6 + (image.now.frame.id + image.now.frame.id)) image.now.bytes.now }
    ensures { ReadsAs (binding_bytes image.now.frame.id) (BindingOk image.now.frame.id) (record_bytes image.now.frame.id (record_of image.now i)) at result }
{
    binding_at(&image.fields(), offset(image, i) + at)
}
