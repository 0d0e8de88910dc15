// Kinds of records, chiralities, operators and comparisons, the bytes that stand for them, and the text of the last three. The library's own
// types of these are below its interface, which has bytes and numbers alone, and a program stands on that interface.
ghost use Rattle.std.specs.Prelude.{Some};
ghost use Rattle.try_building.specs.Signs.{chirality_sign};

use std::fmt;

// What a record is; what a machine's event tells of has the same bytes.
#[derive(Clone, Copy, PartialEq, Eq)]
pub enum Kind {
    Definition = 1,
    Substitute,
    Call,
    Let,
    Switch,
    Create,
    Invoke,
    Literal,
    Op,
    IfC,
    Clause,
    PrintI64,
    Exit,
}

#[derive(Clone, Copy, PartialEq, Eq)]
pub enum Chirality {
    Producer,
    Consumer,
    External,
}

#[derive(Clone, Copy, PartialEq, Eq)]
pub enum Operator {
    Div,
    Prod,
    Rem,
    Sum,
    Sub,
}

#[derive(Clone, Copy, PartialEq, Eq)]
pub enum Comparison {
    Equal,
    NotEqual,
    Less,
    LessOrEqual,
    Greater,
    GreaterOrEqual,
}

// A code that stands for nothing of its sort.
#[derive(Clone, Copy, PartialEq, Eq)]
pub struct UnknownCode(pub u8);

impl TryFrom<u8> for Kind {
    type Error = UnknownCode;

    fn try_from(code: u8) -> Result<Self, UnknownCode> {
        match code {
            1 => Ok(Kind::Definition),
            2 => Ok(Kind::Substitute),
            3 => Ok(Kind::Call),
            4 => Ok(Kind::Let),
            5 => Ok(Kind::Switch),
            6 => Ok(Kind::Create),
            7 => Ok(Kind::Invoke),
            8 => Ok(Kind::Literal),
            9 => Ok(Kind::Op),
            10 => Ok(Kind::IfC),
            11 => Ok(Kind::Clause),
            12 => Ok(Kind::PrintI64),
            13 => Ok(Kind::Exit),
            _ => Err(UnknownCode(code)),
        }
    }
}

impl TryFrom<u8> for Chirality {
    type Error = UnknownCode;

    fn try_from(code: u8) -> Result<Self, UnknownCode> {
        match code {
            0 => Ok(Chirality::Producer),
            1 => Ok(Chirality::Consumer),
            2 => Ok(Chirality::External),
            _ => Err(UnknownCode(code)),
        }
    }
}

impl TryFrom<u8> for Operator {
    type Error = UnknownCode;

    fn try_from(code: u8) -> Result<Self, UnknownCode> {
        match code {
            0 => Ok(Operator::Div),
            1 => Ok(Operator::Prod),
            2 => Ok(Operator::Rem),
            3 => Ok(Operator::Sum),
            4 => Ok(Operator::Sub),
            _ => Err(UnknownCode(code)),
        }
    }
}

impl TryFrom<u8> for Comparison {
    type Error = UnknownCode;

    fn try_from(code: u8) -> Result<Self, UnknownCode> {
        match code {
            0 => Ok(Comparison::Equal),
            1 => Ok(Comparison::NotEqual),
            2 => Ok(Comparison::Less),
            3 => Ok(Comparison::LessOrEqual),
            4 => Ok(Comparison::Greater),
            5 => Ok(Comparison::GreaterOrEqual),
            _ => Err(UnknownCode(code)),
        }
    }
}

impl fmt::Display for Chirality {
    ghost output = { λ chirality. Some (chirality_sign chirality) };

    fn fmt<W: fmt::Write>(&self, f: &mut fmt::Formatter<W>) -> fmt::Result {
        f.write_str(match self {
            Chirality::Producer => "prd",
            Chirality::Consumer => "cns",
            Chirality::External => "ext",
        })
    }
}

impl fmt::Display for Operator {
    fn fmt<W: fmt::Write>(&self, f: &mut fmt::Formatter<W>) -> fmt::Result {
        f.write_str(match self {
            Operator::Div => "/",
            Operator::Prod => "*",
            Operator::Rem => "%",
            Operator::Sum => "+",
            Operator::Sub => "-",
        })
    }
}

impl fmt::Display for Comparison {
    fn fmt<W: fmt::Write>(&self, f: &mut fmt::Formatter<W>) -> fmt::Result {
        f.write_str(match self {
            Comparison::Equal => "==",
            Comparison::NotEqual => "!=",
            Comparison::Less => "<",
            Comparison::LessOrEqual => "<=",
            Comparison::Greater => ">",
            Comparison::GreaterOrEqual => ">=",
        })
    }
}
