// Question 4 of one record.
ghost use Rattle.std.specs.Prelude.{◌≡◌};
ghost use Rattle.image_spec.specs.Image.{is_some};
ghost use Rattle.image_spec.specs.Records.{content, decode_record};
ghost use Rattle.image_fields.specs.Found.{stop};
ghost use Rattle.image_kinds.specs.Codes.{code_of};

use crate::kinds::Kind;
use image_fields::fields::Fields;
use image_fields::skip;
use image_spec::Layout;

// Past what follows the kind byte in a record.
#[tactic(auto, using(crate::proofs::RecordStops::record_stops))]
pub fn skip_content(fields: &Fields<'_>, kind: Kind) -> Option<usize>
    ensures { result ≡ stop (content fields.now.id (code_of kind)) fields.now.bytes.now 1 }
{
    match kind {
        Kind::Definition | Kind::Call | Kind::Clause => {
            fields.skip_list(fields.skip_identifier(1)?)
        }
        Kind::Substitute => fields.skip_substitution(1),
        Kind::Let => {
            let ty = fields.skip_identifier(1)?;
            let tag = fields.skip_type(ty)?;
            fields.skip_list(fields.skip_identifier(tag)?)
        }
        Kind::Switch => {
            let ty = fields.skip_identifier(1)?;
            fields.skip_code(Layout::MAX_COUNT, fields.skip_type(ty)?)
        }
        Kind::Create => {
            let ty = fields.skip_identifier(1)?;
            let environment = fields.skip_type(ty)?;
            fields.skip_code(Layout::MAX_COUNT, fields.skip_environment(environment)?)
        }
        Kind::Invoke => {
            let tag = fields.skip_identifier(1)?;
            let ty = fields.skip_identifier(tag)?;
            fields.skip_list(fields.skip_type(ty)?)
        }
        Kind::Literal => fields.skip_identifier(skip(fields.bytes, 8, 1)?),
        Kind::Op => {
            let op = fields.skip_identifier(1)?;
            let second = fields.skip_code(4, op)?;
            fields.skip_identifier(fields.skip_identifier(second)?)
        }
        Kind::IfC => {
            let first = fields.skip_code(5, 1)?;
            fields.skip_second(fields.skip_identifier(first)?)
        }
        Kind::Print => fields.skip_identifier(fields.skip_code(1, 1)?),
        Kind::Exit => fields.skip_identifier(1),
    }
}

// .. behind any byte; behind one that is no kind nothing is formed.
pub fn skip_content_of(fields: &Fields<'_>, code: u8) -> Option<usize>
    ensures { result ≡ stop (content fields.now.id code) fields.now.bytes.now 1 }
{
    match Kind::try_from(code) {
        Ok(kind) => skip_content(fields, kind),
        Err(_) => None,
    }
}

// Are the bytes a record of a known kind, of exactly its length, with every count, code and mark in range, and I64's bytes zero?
pub fn record_formed(fields: &Fields<'_>) -> bool
    ensures { result ≡ is_some (decode_record fields.now.id fields.now.bytes.now) }
{
    let bytes = fields.bytes;
    if bytes.is_empty() {
        return false;
    }
    skip_content_of(fields, bytes[0]) == Some(bytes.len())
}
