// The bytes that stand for a chirality, an operator or a comparison. (`as u8` gives the byte of a value.)
ghost use Rattle.syntax.specs.Codes.{chiralities, operators, sorts, Decodes};

use crate::context::Chirality;
use crate::ifc::IfSort;
use crate::op::BinOp;

// A byte that stands for no value of the type that it is asked for: one of these, the kind of a record, or the sort of a slot.
// (One `TryFrom` for each enum, here and in image_kinds and step_slots: the gate refuses an impl by a macro of our own.)
#[derive(Clone, Copy, PartialEq, Eq)]
pub struct NoCode(pub u8);

impl TryFrom<u8> for Chirality {
    type Error = NoCode;

    ghost try_from_gives = { Decodes chiralities };

    fn try_from(code: u8) -> Result<Self, NoCode> {
        match code {
            0 => Ok(Chirality::Prd),
            1 => Ok(Chirality::Cns),
            2 => Ok(Chirality::Ext),
            _ => Err(NoCode(code)),
        }
    }
}

impl TryFrom<u8> for BinOp {
    type Error = NoCode;

    ghost try_from_gives = { Decodes operators };

    fn try_from(code: u8) -> Result<Self, NoCode> {
        match code {
            0 => Ok(BinOp::Div),
            1 => Ok(BinOp::Prod),
            2 => Ok(BinOp::Rem),
            3 => Ok(BinOp::Sum),
            4 => Ok(BinOp::Sub),
            _ => Err(NoCode(code)),
        }
    }
}

impl TryFrom<u8> for IfSort {
    type Error = NoCode;

    ghost try_from_gives = { Decodes sorts };

    fn try_from(code: u8) -> Result<Self, NoCode> {
        match code {
            0 => Ok(IfSort::Equal),
            1 => Ok(IfSort::NotEqual),
            2 => Ok(IfSort::Less),
            3 => Ok(IfSort::LessOrEqual),
            4 => Ok(IfSort::Greater),
            5 => Ok(IfSort::GreaterOrEqual),
            _ => Err(NoCode(code)),
        }
    }
}
