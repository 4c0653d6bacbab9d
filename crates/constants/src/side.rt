// The sides of a connection, each with its byte.
ghost use Rattle.std.specs.Prelude.{◌≡◌};
ghost use Rattle.constants.specs.Kinds.{byte_of_side, SideOf};

// A side by its byte.
#[derive(Clone, Copy, Debug, PartialEq, Eq)]
pub enum Side {
    Client = b'C' as isize,
    Server = b'S' as isize,
}

// A byte that no side has.
#[derive(Clone, Copy, Debug, PartialEq, Eq)]
pub struct UnknownSide(pub u8);

impl From<Side> for u8 {
    ghost from_gives = { λ side byte. byte ≡ byte_of_side side };

    fn from(side: Side) -> u8 {
        side as u8
    }
}

impl TryFrom<u8> for Side {
    type Error = UnknownSide;

    ghost try_from_gives = { SideOf };

    fn try_from(byte: u8) -> Result<Self, UnknownSide> {
        match byte {
            b'C' => Ok(Side::Client),
            b'S' => Ok(Side::Server),
            _ => Err(UnknownSide(byte)),
        }
    }
}
