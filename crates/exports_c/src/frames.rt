// The frame reader and the frame writer.
ghost use Rattle.std.specs.Prelude.{◌≡◌};
ghost use Rattle.frame.specs.Frame.{frame_of, read_number};
ghost use Rattle.frame.specs.Written.{output_of, write_number};
ghost use Rattle.cells.specs.Cells.{stored};
ghost use Rattle.exports.specs.Answers.{header_of, wrote, frame_cells, written_cells};

// Reads the frame at the front of the bytes. answer: kind, package, service, method, correlation, the payload's place and length.
#[unsafe(no_mangle)]
pub extern "C" fn arf_read_frame(bytes: &[u8], answer: &mut [u64]) -> u32
    ensures value { result ≡ read_number (frame_of bytes.now) }
    ensures answer_after { answer.new ≡ stored answer.old (frame_cells (frame_of bytes.now)) }
{
    exports::frames::arf_read_frame(bytes, answer)
}

// Writes a frame. answer: its length.
#[unsafe(no_mangle)]
pub extern "C" fn arf_write_frame(
    kind: u32,
    package: u32,
    service: u32,
    method: u32,
    correlation: u64,
    payload: &[u8],
    out: &mut [u8],
    answer: &mut [u64],
) -> u32
    ensures value { result ≡ write_number (wrote (header_of kind «package» service method correlation) payload.now out.old) }
    ensures out_after { out.new ≡ output_of (wrote (header_of kind «package» service method correlation) payload.now out.old) (header_of kind «package» service method correlation) payload.now out.old }
    ensures answer_after { answer.new ≡ stored answer.old (written_cells (wrote (header_of kind «package» service method correlation) payload.now out.old)) }
{
    exports::frames::arf_write_frame(
        kind,
        package,
        service,
        method,
        correlation,
        payload,
        out,
        answer,
    )
}
