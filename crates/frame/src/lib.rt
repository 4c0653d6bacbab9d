// Frames: the reader, which judges a field once it is whole, and the writer.
#![tactic(auto)]

pub mod layout;

ghost use Rattle.std.specs.Prelude.{◌≡◌, [], ◌∷◌, ◌+◌, ◌≤◌, length, true, Ok};
ghost use Rattle.buffer.specs.Store.{written};
ghost use Rattle.wire.specs.Varuint.{varuint, varuint_bytes};
ghost use Rattle.frame.specs.Frame.{known_kind, frame_payload, frame_of};
ghost use Rattle.frame.specs.Places.{header_at, judged};
ghost use Rattle.frame.specs.Told.{told, told_header, told_written};
ghost use Rattle.frame.specs.Written.{front_bytes, written_of, output_of};

use crate::layout::{
    CORRELATION_AT, CORRELATION_BYTES, FLAGS_AT, IDENTIFIER_BYTES, KIND_AT, MAGIC_2_AT, MAGIC_AT,
    METHOD_AT, PACKAGE_AT, SERVICE_AT, VERSION_AT,
};
use buffer::copy;
use constants::frame_kind::FrameKind;
use constants::refusal::Refusal;
use constants::{format, limit};
use wire::little::{store, u32_at, u64_at};
use wire::varuint::VarUIntError;

// A frame's header. The kind of a frame that was read is 1 to 8; the writer may be handed any number.
#[derive(Clone, Copy)]
pub struct Header {
    pub kind: u32,
    pub package: u32,
    pub service: u32,
    pub method: u32,
    pub correlation: u64,
}

// A whole frame: its header, and the payload's place and length in the bytes.
#[derive(Clone, Copy)]
pub struct WholeFrame {
    pub header: Header,
    pub place: usize,
    pub length: usize,
}

// What stands at the front of bytes that are not refused.
#[derive(Clone, Copy)]
pub enum FrameRead {
    // More bytes are needed.
    More,
    Whole(WholeFrame),
}

// Whether it is one of the eight kinds.
pub fn known_kind(kind: u32) -> bool
    ensures { result ≡ known_kind kind }
{
    (FrameKind::Invoke as u32 <= kind) & (kind <= FrameKind::Cancel as u32)
}

// The header, from the fields' places.
fn header_at(s: &[u8]) -> Header
    requires { 25 ≤ length s.now }
    ensures { result ≡ header_at s.now }
{
    Header {
        kind: u32::from(s[KIND_AT]),
        package: u32_at(s, PACKAGE_AT),
        service: u32_at(s, SERVICE_AT),
        method: u32_at(s, METHOD_AT),
        correlation: u64_at(s, CORRELATION_AT),
    }
}

// From the payload's length on: malformed is 6, above 16,384 is 7, whether or not the payload is there.
fn read_payload(s: &[u8]) -> Result<FrameRead, Refusal>
    requires { 25 ≤ length s.now }
    ensures { told result ≡ frame_payload (length s.now) (header_at s.now) (varuint s.now 25) }
{
    match wire::varuint::read(s, format::HEADER) {
        Ok(size) => {
            if (limit::PAYLOAD as u64) < size.value {
                return Err(Refusal::PayloadTooLong);
            }
            let length = size.value as usize;
            if s.len() - size.next < length {
                return Ok(FrameRead::More);
            }
            Ok(FrameRead::Whole(WholeFrame {
                header: header_at(s),
                place: size.next,
                length,
            }))
        }
        Err(VarUIntError::Cut) => Ok(FrameRead::More),
        Err(VarUIntError::Malformed) => Err(Refusal::Length),
    }
}

// Whether the header is whole, as far as it is there, each field judged once it is whole.
fn judge_header(bytes: &[u8]) -> Result<bool, Refusal>
    ensures { (judged (told_header result) (frame_payload (length bytes.now) (header_at bytes.now) (varuint bytes.now 25)) ≡ frame_of bytes.now) × (result ≡ Ok true → 25 ≤ length bytes.now) }
{
    let n = bytes.len();
    if n < VERSION_AT {
        return Ok(false);
    }
    if !((bytes[MAGIC_AT] == format::MAGIC) & (bytes[MAGIC_2_AT] == format::MAGIC_2)) {
        return Err(Refusal::Magic);
    }
    if n < KIND_AT {
        return Ok(false);
    }
    if bytes[VERSION_AT] != format::VERSION {
        return Err(Refusal::Version);
    }
    if n < FLAGS_AT {
        return Ok(false);
    }
    if !known_kind(u32::from(bytes[KIND_AT])) {
        return Err(Refusal::Kind);
    }
    if n < PACKAGE_AT {
        return Ok(false);
    }
    if bytes[FLAGS_AT] != format::FLAGS {
        return Err(Refusal::Flags);
    }
    Ok(format::HEADER <= n)
}

// Reads the frame at the front of the bytes. Bytes after the frame are not looked at.
#[tactic(auto, using(crate::proofs::Places::judged_refusal))]
pub fn read_frame(bytes: &[u8]) -> Result<FrameRead, Refusal>
    ensures { told result ≡ frame_of bytes.now }
{
    if !judge_header(bytes)? {
        return Ok(FrameRead::More);
    }
    read_payload(bytes)
}

// The place of a payload of n bytes in its frame.
pub fn payload_place(n: u64) -> usize
    ensures { (result ≡ 25 + length (varuint_bytes n)) × (result ≤ 35) }
{
    format::HEADER + wire::varuint::size(n)
}

// All before the payload, of which there are n bytes.
pub fn write_front(out: &mut [u8], header: Header, n: u64)
    requires { (25 + length (varuint_bytes n) ≤ length out.old) × (header.kind ≤ 8) }
    ensures { out.new ≡ written out.old 0 (front_bytes header n) }
{
    let start = [
        format::MAGIC,
        format::MAGIC_2,
        format::VERSION,
        header.kind as u8,
        format::FLAGS,
    ];
    copy(out, MAGIC_AT, &start);
    store(out, PACKAGE_AT, IDENTIFIER_BYTES, header.package as u64);
    store(out, SERVICE_AT, IDENTIFIER_BYTES, header.service as u64);
    store(out, METHOD_AT, IDENTIFIER_BYTES, header.method as u64);
    store(out, CORRELATION_AT, CORRELATION_BYTES, header.correlation);
    wire::varuint::write(out, format::HEADER, n);
}

// Writes the frame of a header and a payload. A refusal (4, 7, 52 in this order) leaves the output as it was.
pub fn write_frame(header: Header, payload: &[u8], out: &mut [u8]) -> Result<usize, Refusal>
    ensures { (told_written result ≡ written_of header payload.now (length out.old)) × (out.new ≡ output_of (told_written result) header payload.now out.old) }
{
    if !known_kind(header.kind) {
        return Err(Refusal::Kind);
    }
    let n = payload.len();
    if limit::PAYLOAD < n {
        return Err(Refusal::PayloadTooLong);
    }
    let place = payload_place(n as u64);
    if out.len() < place + n {
        return Err(Refusal::OutputTooShort);
    }
    write_front(out, header, n as u64);
    copy(out, place, payload);
    Ok(place + n)
}
