// The frame reader and the frame writer.
ghost use Rattle.std.specs.Prelude.{◌≡◌};
ghost use Rattle.frame.specs.Frame.{frame_of, read_number};
ghost use Rattle.frame.specs.Told.{told, told_written};
ghost use Rattle.frame.specs.Written.{output_of, write_number, write_length};
ghost use Rattle.cells.specs.Cells.{stored};
ghost use Rattle.exports.specs.Answers.{header_of, wrote, frame_cells, written_cells};

use crate::numbers::number;
use cells::store;
use constants::refusal::{ACCEPTED, MORE, Refusal};
use frame::{FrameRead, Header};

fn frame_cells(a: Result<FrameRead, Refusal>) -> [u64; 7]
    ensures { result ≡ frame_cells (told a) }
{
    match a {
        Ok(FrameRead::Whole(frame)) => {
            let h = frame.header;
            [
                h.kind as u64,
                h.package as u64,
                h.service as u64,
                h.method as u64,
                h.correlation,
                frame.place as u64,
                frame.length as u64,
            ]
        }
        Ok(FrameRead::More) => [0; 7],
        Err(_) => [0; 7],
    }
}

// 1 where more bytes are needed.
fn read_number(a: Result<FrameRead, Refusal>) -> u32
    ensures { result ≡ read_number (told a) }
{
    match a {
        Ok(FrameRead::Whole(_)) => ACCEPTED,
        Ok(FrameRead::More) => MORE,
        Err(refusal) => u32::from(refusal),
    }
}

// Reads the frame at the front of the bytes. answer: kind, package, service, method, correlation, the payload's place and length.
pub fn arf_read_frame(bytes: &[u8], answer: &mut [u64]) -> u32
    ensures value { result ≡ read_number (frame_of bytes.now) }
    ensures answer_after { answer.new ≡ stored answer.old (frame_cells (frame_of bytes.now)) }
{
    let a = arf::read_frame(bytes);
    store(answer, &frame_cells(a));
    read_number(a)
}

fn written_length(a: Result<usize, Refusal>) -> u64
    ensures { result ≡ write_length (told_written a) }
{
    match a {
        Ok(length) => length as u64,
        Err(_) => 0,
    }
}

// Writes a frame. answer: its length.
pub fn arf_write_frame(
    kind: u32,
    package: u32,
    service: u32,
    method: u32,
    correlation: u64,
    payload: &[u8],
    out: &mut [u8],
    answer: &mut [u64],
) -> u32
    ensures value { result ≡ write_number (wrote (header_of kind «package» service method correlation) payload.now out.old) }
    ensures out_after { out.new ≡ output_of (wrote (header_of kind «package» service method correlation) payload.now out.old) (header_of kind «package» service method correlation) payload.now out.old }
    ensures answer_after { answer.new ≡ stored answer.old (written_cells (wrote (header_of kind «package» service method correlation) payload.now out.old)) }
{
    let header = Header {
        kind,
        package,
        service,
        method,
        correlation,
    };
    let a = arf::write_frame(header, payload, out);
    store(answer, &[written_length(a)]);
    number(&a)
}
