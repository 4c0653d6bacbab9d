// Cases of the frame reader and of the frame writer.
use crate::stop::Stop;
use crate::{blank, input, output, sums};
use constants::numbered::Numbered;
use constants::refusal::{MORE, Refusal};
use frame::{FrameRead, Header};
use std::io::{Read, Write};

// The most bytes of an output, and what each holds before the call.
pub const ROOM: usize = 140000;

pub const BYTE: u8 = 165;

// Code 6: the bytes of a frame. The line has number, the header's five numbers, and the payload's place and length.
pub fn read(from: &mut impl Read, to: &mut impl Write) -> Result<(), Stop> {
    let mut data = blank::bytes();
    let n = input::bytes(from, &mut data)?;
    print_read(to, arf::read_frame(&data[..n]))
}

const NO_HEADER: Header = Header {
    kind: 0,
    package: 0,
    service: 0,
    method: 0,
    correlation: 0,
};

fn print_read(to: &mut impl Write, answer: Result<FrameRead, Refusal>) -> Result<(), Stop> {
    match answer {
        Ok(FrameRead::Whole(frame)) => {
            print_frame(to, 0, frame.header, frame.place, frame.length)
        }
        Ok(FrameRead::More) => print_frame(to, MORE, NO_HEADER, 0, 0),
        Err(refusal) => print_frame(to, refusal.number(), NO_HEADER, 0, 0),
    }
}

fn print_frame(
    to: &mut impl Write,
    number: u32,
    header: Header,
    place: usize,
    length: usize,
) -> Result<(), Stop> {
    let numbers = [
        u64::from(number),
        u64::from(header.kind),
        u64::from(header.package),
        u64::from(header.service),
        u64::from(header.method),
        header.correlation,
        place as u64,
    ];
    output::numbers(to, &numbers)?;
    output::last(to, length as u64)?;
    Ok(())
}

// Code 7: a header, a payload and the output's length. The line has number, the frame's length and the output's sum.
pub fn write(from: &mut impl Read, to: &mut impl Write) -> Result<(), Stop> {
    let mut payload = blank::bytes();
    let mut out = blank::output();
    let header = read_header(from)?;
    let n = input::bytes(from, &mut payload)?;
    let room = input::room(from, &out)?;
    show(to, header, &payload[..n], &mut out[..room])
}

pub fn read_header(from: &mut impl Read) -> Result<Header, Stop> {
    Ok(Header {
        kind: input::word(from)?,
        package: input::word(from)?,
        service: input::word(from)?,
        method: input::word(from)?,
        correlation: input::long(from)?,
    })
}

fn show(to: &mut impl Write, header: Header, payload: &[u8], out: &mut [u8]) -> Result<(), Stop> {
    let answer = arf::write_frame(header, payload, out);
    output::numbers(to, &[output::number(&answer), answer.unwrap_or(0) as u64])?;
    output::last(to, sums::of_bytes(out))?;
    Ok(())
}
