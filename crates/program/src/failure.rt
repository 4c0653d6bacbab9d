// Why a verb has printed no text, and how that is told.
ghost use Rattle.std.specs.Prelude.{◌≡◌, IfOk, Ok};

use files::FileError;
use std::io;
use std::rt::Env;

#[derive(Clone, Copy, Debug)]
pub enum Failure {
    // There is no such verb with so many arguments.
    Usage,
    // The file of an argument.
    File(FileError),
    // The files of two arguments.
    Files(FileError, FileError),
    // A schema file, an index or a record with more bytes than are read of it.
    LongSchema,
    LongIndex,
    LongRecord,
    // An argument is no correlation.
    Call,
    // The text of a look-up does not fit.
    LongText,
    // Standard output takes no text.
    Output(io::Error),
}

impl From<FileError> for Failure {
    fn from(error: FileError) -> Failure {
        Failure::File(error)
    }
}

// What two arguments gave, each for itself; where both have failed, both are told.
pub fn both(
    first: Result<usize, FileError>,
    second: Result<usize, FileError>,
) -> Result<(usize, usize), Failure>
    ensures { IfOk result (λ lengths. (first ≡ Ok lengths.0) × (second ≡ Ok lengths.1)) }
{
    match (first, second) {
        (Ok(n), Ok(m)) => Ok((n, m)),
        (Err(a), Err(b)) => Err(Failure::Files(a, b)),
        (Err(a), Ok(_)) => Err(Failure::File(a)),
        (Ok(_), Err(b)) => Err(Failure::File(b)),
    }
}

impl Failure {
    // Says on standard error, as `out`, why the program has failed.
    pub fn tell(self, env: &impl Env, out: &impl Print) -> io::Result<()> {
        match self {
            Failure::Usage => println!(out;
                "arf: there is no such verb with so many arguments: run ./arf --help"
            ),
            Failure::File(error) => files::tell(env, out, b"arf", error),
            Failure::Files(first, second) => {
                files::tell(env, out, b"arf", first)?;
                files::tell(env, out, b"arf", second)
            }
            Failure::LongSchema => println!(out;
                "arf: the schema file has more than 131,072 bytes"
            ),
            Failure::LongIndex => println!(out; "arf: the index has more than 131,072 bytes"),
            Failure::LongRecord => println!(out; "arf: the record has more than 131,072 bytes"),
            Failure::Call => println!(out;
                "arf: CALL is a decimal number from 0 to 18446744073709551615"
            ),
            Failure::LongText => println!(out; "arf: the text is too long"),
            Failure::Output(error) => files::fail(out, b"arf", b"standard output", error),
        }
    }
}
