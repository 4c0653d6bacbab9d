// The entries of a record: a side byte, C or S, and then a frame.
#![tactic(auto)]

ghost use Rattle.std.specs.Prelude.{◌≡◌};
ghost use Rattle.record.specs.Entry.{is_side, entry_length, answered};

use constants::side::Side;
use frame::FrameRead;

// Where the frame of an entry stands: behind the side byte.
pub const FRAME_AT: usize = 1;

// Whether the byte is C or S.
fn is_side(byte: u8) -> bool
    ensures { result ≡ is_side byte }
{
    (byte == Side::Client as u8) | (byte == Side::Server as u8)
}

// The length of the entry that starts at the front of the bytes, where one does.
pub fn entry_length(bytes: &[u8]) -> Option<usize>
    ensures { result ≡ answered (entry_length bytes.now) }
{
    let [side, rest @ ..] = bytes else {
        return None;
    };
    if !is_side(*side) {
        return None;
    }
    match frame::read_frame(rest) {
        Ok(FrameRead::Whole(frame)) => Some(FRAME_AT + frame.place + frame.length),
        Ok(FrameRead::More) => None,
        Err(_) => None,
    }
}
