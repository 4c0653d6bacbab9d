// Files that a program's arguments name.
#![tactic(auto)]

ghost use Rattle.std.specs.Prelude.{◌≡◌, ◌<◌, ◌≤◌, length, take, IfOk, IfErr, OnOk, OnErr};
ghost use Rattle.std.specs.Io.{ReadsAtMost};
ghost use Rattle.std.specs.Io.KnownBytes.{Appends, Consumes, IsAtEnd};
ghost use Rattle.files.specs.Failures.{IsNameError, IsReadError, IsNoText, GivesFront, TakesFront};

use std::env::FillError;
use std::fs::{OpenFile, OpenOptions};
use std::io::{Cursor, ErrorKind, Read, Write};
use std::rt::{Env, Files};
use std::{fs, io};

// The most bytes of a file's name.
pub const NAME: usize = 4096;

// The system's numbers for an argument that is missing, for a name that is too long, and for bytes that are no text.
const MISSING: i32 = 22;

const TOO_LONG: i32 = 36;

const NO_TEXT: i32 = 84;

// More bytes than the words of any error have, with its number.
const WORDS: usize = 512;

// Why a file was not read or made.
#[derive(Clone, Copy, Debug)]
pub enum FileError {
    // An argument is no file's name.
    Name(io::Error),
    // The system refused a call on the file that an argument names.
    File { argument: usize, error: io::Error },
}

// Says what failed and why, after the program's name.
pub fn fail(out: &impl Print, program: &[u8], what: &[u8], error: io::Error) -> io::Result<()> {
    let mut text = Cursor::new([0u8; WORDS]);
    // Words that are longer are cut.
    let _ = write!(text, "{error}");
    let n = front(text.position() as usize, text.get_ref());
    out.write_all(program)?;
    out.write_all(b": ")?;
    out.write_all(what)?;
    out.write_all(b": ")?;
    out.write_all(without_number(&text.get_ref()[..n]))?;
    out.write_all(b"\n")
}

// The system's words for an error, without its number.
fn without_number(text: &[u8]) -> &[u8] {
    match str::from_utf8(text) {
        Ok(words) => match words.split_once(" (os error ") {
            Some((words, _)) => words.as_bytes(),
            None => text,
        },
        Err(_) => text,
    }
}

// Says which file failed and why, after the program's name.
pub fn tell(
    env: &impl Env,
    out: &impl Print,
    program: &[u8],
    failure: FileError,
) -> io::Result<()> {
    match failure {
        FileError::Name(error) => fail(out, program, b"a file's name", error),
        FileError::File { argument, error } => {
            let mut path = buffer();
            match name(env, argument, &mut path) {
                Ok(length) => fail(out, program, &path[..length], error),
                Err(_) => fail(out, program, b"a file", error),
            }
        }
    }
}

// Room for a file's name.
pub fn buffer() -> [u8; NAME] {
    [0; NAME]
}

fn name_error(error: FillError) -> FileError
    ensures { IsNameError result }
{
    let number = match error {
        FillError::NotPresent => MISSING,
        FillError::TooLong => TOO_LONG,
    };
    FileError::Name(io::Error::from_raw_os_error(number))
}

// Puts the name that argument i gives at the start of path, and answers its length.
pub fn name(env: &impl Env, i: usize, path: &mut [u8]) -> Result<usize, FileError>
    ensures in_bounds { ReadsAtMost result path.new }
    ensures len { length path.new ≡ length path.old }
    ensures error { IfErr result IsNameError }
{
    env.arg(i, path).map_err(name_error)
}

// A file's name as text, which std wants.
fn text(path: &[u8]) -> io::Result<&str>
    ensures ok { IfOk result (λ s. s.now ≡ path.now) }
    ensures error { IfErr result (IsNoText path.now) }
{
    str::from_utf8(path).map_err(|_| io::Error::from_raw_os_error(NO_TEXT))
}

// Fills buf from a reader, as far as that has bytes, and answers how many it has put there.
pub fn fill<R: Read>(file: &mut R, buf: &mut [u8]) -> io::Result<usize>
    ensures in_bounds { ReadsAtMost result buf.new }
    ensures bytes { IfOk result (λ n. Consumes (R.remaining file.old) (R.remaining file.new) (take n buf.new)) }
    ensures end { IfOk result (λ n. n < length buf.new → IsAtEnd (R.remaining file.new)) }
    ensures len { length buf.new ≡ length buf.old }
    ensures error { OnErr result (GivesFront (R.remaining file.old) (R.remaining file.new) buf.new) }
{
    let mut n = 0;
    // A turn goes on by as many bytes as the reader gives: std's own loop says too little of an error for the clause here.
    while n < buf.len() {
        let more = file.read(&mut buf[n..])?;
        if more == 0 {
            break;
        }
        n += more;
    }
    Ok(n)
}

// Puts the bytes of a file at the start of buf, as far as it holds them, and answers how many these are.
fn read_path(files: &impl Files, path: &[u8], buf: &mut [u8]) -> io::Result<usize>
    ensures in_bounds { ReadsAtMost result buf.new }
    ensures len { length buf.new ≡ length buf.old }
{
    let mut file = fs::open(files, text(path)?)?;
    fill(&mut file, buf)
}

// Puts the bytes of the file that argument i names at the start of buf, as far as it holds them, and answers how many these are.
pub fn read<R: Env + Files>(rt: &R, i: usize, buf: &mut [u8]) -> Result<usize, FileError>
    ensures in_bounds { ReadsAtMost result buf.new }
    ensures len { length buf.new ≡ length buf.old }
    ensures error { IfErr result (IsReadError i) }
{
    let mut path = buffer();
    let length = name(rt, i, &mut path)?;
    read_path(rt, &path[..length], buf).map_err(|error| FileError::File { argument: i, error })
}

// The number n of bytes at the front of buf; there are never more than buf has.
pub fn front(n: usize, buf: &[u8]) -> usize
    ensures in_bounds { result ≤ length buf.now }
    ensures taken { result ≡ length (take result buf.now) }
{
    if buf.len() < n {
        return 0;
    }
    n
}

// Makes a file, which may not be there yet, and opens it for writing.
pub fn create<R: Files>(files: &R, path: &[u8]) -> io::Result<R::File> {
    OpenOptions::new()
        .write(true)
        .create_new(true)
        .open(files, text(path)?)
}

// Writes the bytes at the end of a file that was made. Where that fails, it has taken some of them, the first.
pub fn put<W: Write>(file: &mut W, bytes: &[u8]) -> io::Result<()>
    ensures ok { OnOk result (Appends (W.contents file.old) (W.contents file.new) bytes.now) }
    ensures error { OnErr result (TakesFront (W.contents file.old) (W.contents file.new) bytes.now) }
{
    let mut n = 0;
    // A turn goes on by as many bytes as the writer takes: std's own loop says too little of an error for the clause here.
    while n < bytes.len() {
        let more = file.write(&bytes[n..])?;
        if more == 0 {
            return Err(io::Error::from(ErrorKind::WriteZero));
        }
        n += more;
    }
    Ok(())
}

// Brings a file that was made to the disk and closes it.
pub fn finish<F: OpenFile + Drop>(file: F) -> io::Result<()> {
    file.sync_all()
}

// Takes a file away again.
pub fn remove(files: &impl Files, path: &[u8]) -> io::Result<()> {
    fs::remove_file(files, text(path)?)
}

// Writes all bytes of a file that was made, and closes it.
fn put_all<F: Write + OpenFile + Drop>(mut file: F, bytes: &[u8]) -> io::Result<()> {
    put(&mut file, bytes)?;
    finish(file)
}

// Writes the bytes to a new file, which is taken away again where that fails.
pub fn save(files: &impl Files, path: &[u8], bytes: &[u8]) -> io::Result<()> {
    let file = create(files, path)?;
    let written = put_all(file, bytes);
    if written.is_err() {
        // The file's failure counts, and not this one's.
        let _ = remove(files, path);
    }
    written
}
