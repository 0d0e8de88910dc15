// The kind that a byte stands for. (`as u8` gives the byte of a kind.)
ghost use Rattle.image_kinds.specs.Codes.{Decodes};

use crate::kinds::Kind;
use syntax::codes::NoCode;

impl TryFrom<u8> for Kind {
    type Error = NoCode;

    ghost try_from_gives = { Decodes };

    fn try_from(code: u8) -> Result<Self, NoCode> {
        match code {
            1 => Ok(Kind::Definition),
            2 => Ok(Kind::Substitute),
            3 => Ok(Kind::Call),
            4 => Ok(Kind::Let),
            5 => Ok(Kind::Switch),
            6 => Ok(Kind::Create),
            7 => Ok(Kind::Invoke),
            8 => Ok(Kind::Literal),
            9 => Ok(Kind::Op),
            10 => Ok(Kind::IfC),
            11 => Ok(Kind::Clause),
            12 => Ok(Kind::Print),
            13 => Ok(Kind::Exit),
            _ => Err(NoCode(code)),
        }
    }
}
