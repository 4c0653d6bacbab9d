// The kinds of types, each with its number.
ghost use Rattle.std.specs.Prelude.{◌≡◌};
ghost use Rattle.constants.specs.Kinds.{number_of_kind, KindOf};

// A kind by its number.
#[derive(Clone, Copy, Debug, PartialEq, Eq)]
pub enum Kind {
    Bool = 1,
    Int8 = 2,
    Int16 = 3,
    Int32 = 4,
    Int64 = 5,
    Uint8 = 6,
    Uint16 = 7,
    Uint32 = 8,
    Uint64 = 9,
    Float32 = 10,
    Float64 = 11,
    String = 12,
    Bytes = 13,
    Array = 14,
    Map = 15,
    Struct = 16,
}

// A number that no kind has.
#[derive(Clone, Copy, Debug, PartialEq, Eq)]
pub struct UnknownKind(pub u32);

impl From<Kind> for u32 {
    ghost from_gives = { λ kind number. number ≡ number_of_kind kind };

    fn from(kind: Kind) -> u32 {
        kind as u32
    }
}

impl TryFrom<u32> for Kind {
    type Error = UnknownKind;

    ghost try_from_gives = { KindOf };

    fn try_from(number: u32) -> Result<Self, UnknownKind> {
        match number {
            1 => Ok(Kind::Bool),
            2 => Ok(Kind::Int8),
            3 => Ok(Kind::Int16),
            4 => Ok(Kind::Int32),
            5 => Ok(Kind::Int64),
            6 => Ok(Kind::Uint8),
            7 => Ok(Kind::Uint16),
            8 => Ok(Kind::Uint32),
            9 => Ok(Kind::Uint64),
            10 => Ok(Kind::Float32),
            11 => Ok(Kind::Float64),
            12 => Ok(Kind::String),
            13 => Ok(Kind::Bytes),
            14 => Ok(Kind::Array),
            15 => Ok(Kind::Map),
            16 => Ok(Kind::Struct),
            _ => Err(UnknownKind(number)),
        }
    }
}
