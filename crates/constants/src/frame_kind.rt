// The kinds of frames, each with its number.
ghost use Rattle.std.specs.Prelude.{◌≡◌};
ghost use Rattle.constants.specs.Kinds.{number_of_frame_kind, FrameKindOf};

// A frame's kind by its number.
#[derive(Clone, Copy, Debug, PartialEq, Eq)]
pub enum FrameKind {
    Invoke = 1,
    InStream = 2,
    InClose = 3,
    OutStream = 4,
    OutClose = 5,
    Response = 6,
    Error = 7,
    Cancel = 8,
}

// A number that no frame's kind has.
#[derive(Clone, Copy, Debug, PartialEq, Eq)]
pub struct UnknownFrameKind(pub u8);

impl From<FrameKind> for u8 {
    ghost from_gives = { λ kind number. number ≡ number_of_frame_kind kind };

    fn from(kind: FrameKind) -> u8 {
        kind as u8
    }
}

impl TryFrom<u8> for FrameKind {
    type Error = UnknownFrameKind;

    ghost try_from_gives = { FrameKindOf };

    fn try_from(number: u8) -> Result<Self, UnknownFrameKind> {
        match number {
            1 => Ok(FrameKind::Invoke),
            2 => Ok(FrameKind::InStream),
            3 => Ok(FrameKind::InClose),
            4 => Ok(FrameKind::OutStream),
            5 => Ok(FrameKind::OutClose),
            6 => Ok(FrameKind::Response),
            7 => Ok(FrameKind::Error),
            8 => Ok(FrameKind::Cancel),
            _ => Err(UnknownFrameKind(number)),
        }
    }
}
