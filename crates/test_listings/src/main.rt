// Prints the listing of each case on standard input: a schema file and a record, each as a length (four bytes, the least first) and its bytes.
#![tactic(auto)]

ghost use Rattle.std.specs.Prelude.{◌≡◌, length};
ghost use Rattle.std.specs.Io.{ReadsAtMost};
ghost use Rattle.files.specs.Failures.{GivesSome};

use std::io;
use std::io::{ErrorKind, Read};

// The most bytes of a schema file or a record here.
const MOST: usize = 70000;

// Zeros. They come from a function, so that the proof of the caller knows their number alone.
fn blank() -> [u8; MOST] {
    [0u8; MOST]
}

fn blank_listing() -> [u8; listing::MOST] {
    [0u8; listing::MOST]
}

// Fills buf from a reader that does not end before; what it gave until an error is lost.
fn fill_bytes<R: Read>(from: &mut R, buf: &mut [u8]) -> io::Result<()>
    ensures len { length buf.new ≡ length buf.old }
    ensures left { GivesSome (R.remaining from.old) (R.remaining from.new) }
{
    if files::fill(from, buf)? < buf.len() {
        return Err(io::Error::from(ErrorKind::UnexpectedEof));
    }
    Ok(())
}

fn length<R: Read>(from: &mut R) -> io::Result<usize>
    ensures left { GivesSome (R.remaining from.old) (R.remaining from.new) }
{
    let mut bytes = [0u8; 4];
    fill_bytes(from, &mut bytes)?;
    Ok(u32::from_le_bytes(bytes) as usize)
}

// A length and that many bytes, which it puts at the start of buf. A length that buf does not hold counts as the end of the file.
fn bytes<R: Read>(from: &mut R, buf: &mut [u8]) -> io::Result<usize>
    ensures in_bounds { ReadsAtMost result buf.new }
    ensures len { length buf.new ≡ length buf.old }
    ensures left { GivesSome (R.remaining from.old) (R.remaining from.new) }
{
    let n = length(from)?;
    if buf.len() < n {
        return Err(io::Error::from(ErrorKind::UnexpectedEof));
    }
    fill_bytes(from, &mut buf[..n])?;
    Ok(n)
}

fn print(to: &impl Print, schema: &[u8], entries: &[u8]) -> io::Result<()> {
    let mut out = blank_listing();
    let n = listing::list(schema, entries, &mut out);
    to.write_all(&out[..n])
}

// Runs the next case; where there is none, the file is at its end.
fn run_case(from: &mut impl Read, to: &impl Print) -> io::Result<()> {
    let mut schema = blank();
    let mut entries = blank();
    let n = bytes(from, &mut schema)?;
    let m = bytes(from, &mut entries)?;
    print(to, &schema[..n], &entries[..m])
}

// A proved loop has to end, and nothing says that a file does: the loop counts its turns up to a number that no run reaches.
fn main(rt: HostRuntime) -> io::Result<()> {
    let mut from = rt.reader();
    for _ in 0..u64::MAX {
        match run_case(&mut from, &rt) {
            Ok(()) => {}
            Err(error) if error.kind() == ErrorKind::UnexpectedEof => break,
            Err(error) => return Err(error),
        }
    }
    Ok(())
}
