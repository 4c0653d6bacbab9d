// What is refused, and where: the refusals by their names, each with its number (docs/FORMAT.md, "Numbers that come back"). C has ARF_BAD_ before the names.
ghost use Rattle.std.specs.Prelude.{◌≡◌, Err};
ghost use Rattle.constants.specs.Number.{number_of, RefusalOf};

// Neither is a refusal: what was asked is done, and more bytes are needed.
pub const ACCEPTED: u32 = 0;

pub const MORE: u32 = 1;

// A refusal by its number.
#[derive(Clone, Copy, Debug, PartialEq, Eq)]
pub enum Refusal {
    Magic = 2,
    Version = 3,
    Kind = 4,
    Flags = 5,
    Length = 6,
    PayloadTooLong = 7,
    WrongSide = 8,
    UnknownMethod = 9,
    CallOpen = 10,
    CallNotOpen = 11,
    OtherMethod = 12,
    TooManyCalls = 13,
    NotNow = 14,
    CallTable = 15,
    Dropped = 16,
    TooManyElements = 17,
    TallyFull = 18,
    TallyRows = 19,
    Cut = 20,
    Varuint = 21,
    Bool = 22,
    Utf8 = 23,
    RepeatedKey = 24,
    AbsentField = 25,
    UnknownBit = 26,
    Surplus = 27,
    TooDeep = 28,
    UnduePayload = 29,
    SheetTooShort = 30,
    MapTooLong = 31,
    SchemaShape = 40,
    TooManyRows = 41,
    TypeRow = 42,
    Field = 43,
    Method = 44,
    FileTooLong = 45,
    NoStruct = 46,
    NoExtension = 47,
    Sheet = 50,
    Outside = 51,
    OutputTooShort = 52,
    ListTooShort = 53,
    Index = 65,
    OtherRecord = 66,
}

// A refusal and its place. The place comes first: an answer that is laid out as places are stays in registers.
#[derive(Clone, Copy, Debug, PartialEq, Eq)]
pub struct Refused {
    pub place: usize,
    pub refusal: Refusal,
}

impl From<Refusal> for u32 {
    ghost from_gives = { λ refusal number. number ≡ number_of refusal };

    fn from(refusal: Refusal) -> u32 {
        refusal as u32
    }
}

// A number that no refusal has.
#[derive(Clone, Copy, Debug, PartialEq, Eq)]
pub struct UnknownRefusal(pub u32);

impl TryFrom<u32> for Refusal {
    type Error = UnknownRefusal;

    ghost try_from_gives = { RefusalOf };

    fn try_from(number: u32) -> Result<Self, UnknownRefusal> {
        match number {
            2 => Ok(Refusal::Magic),
            3 => Ok(Refusal::Version),
            4 => Ok(Refusal::Kind),
            5 => Ok(Refusal::Flags),
            6 => Ok(Refusal::Length),
            7 => Ok(Refusal::PayloadTooLong),
            8 => Ok(Refusal::WrongSide),
            9 => Ok(Refusal::UnknownMethod),
            10 => Ok(Refusal::CallOpen),
            11 => Ok(Refusal::CallNotOpen),
            12 => Ok(Refusal::OtherMethod),
            13 => Ok(Refusal::TooManyCalls),
            14 => Ok(Refusal::NotNow),
            15 => Ok(Refusal::CallTable),
            16 => Ok(Refusal::Dropped),
            17 => Ok(Refusal::TooManyElements),
            18 => Ok(Refusal::TallyFull),
            19 => Ok(Refusal::TallyRows),
            20 => Ok(Refusal::Cut),
            21 => Ok(Refusal::Varuint),
            22 => Ok(Refusal::Bool),
            23 => Ok(Refusal::Utf8),
            24 => Ok(Refusal::RepeatedKey),
            25 => Ok(Refusal::AbsentField),
            26 => Ok(Refusal::UnknownBit),
            27 => Ok(Refusal::Surplus),
            28 => Ok(Refusal::TooDeep),
            29 => Ok(Refusal::UnduePayload),
            30 => Ok(Refusal::SheetTooShort),
            31 => Ok(Refusal::MapTooLong),
            40 => Ok(Refusal::SchemaShape),
            41 => Ok(Refusal::TooManyRows),
            42 => Ok(Refusal::TypeRow),
            43 => Ok(Refusal::Field),
            44 => Ok(Refusal::Method),
            45 => Ok(Refusal::FileTooLong),
            46 => Ok(Refusal::NoStruct),
            47 => Ok(Refusal::NoExtension),
            50 => Ok(Refusal::Sheet),
            51 => Ok(Refusal::Outside),
            52 => Ok(Refusal::OutputTooShort),
            53 => Ok(Refusal::ListTooShort),
            65 => Ok(Refusal::Index),
            66 => Ok(Refusal::OtherRecord),
            _ => Err(UnknownRefusal(number)),
        }
    }
}

impl Refusal {
    // The refusal at a place, as an answer.
    pub fn at<T>(self, place: usize) -> Result<T, Refused>
        ensures { result ≡ Err (record { place = place; refusal = self }) }
    {
        Err(Refused {
            place,
            refusal: self,
        })
    }
}
