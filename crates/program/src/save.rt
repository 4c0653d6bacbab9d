// The new files of a salvage and of an index.
ghost use Rattle.std.specs.Prelude.{◌≡◌, ◌≤◌, length, take};

use crate::arguments::{SECOND, THIRD};
use crate::failure::{Failure, both};
use files::FileError;
use salvage::SPAN_CELLS;
use std::fs::OpenFile;
use std::io;
use std::io::Write;
use std::rt::{Env, Files};

// The number of the cells of n spans at the front of the list; there are never more than the list has.
pub fn front_cells(n: usize, spans: &[u32]) -> usize
    ensures in_bounds { result ≤ length spans.now }
    ensures taken { result ≡ length (take result spans.now) }
{
    if spans.len() / SPAN_CELLS < n {
        return 0;
    }
    SPAN_CELLS * n
}

// A failure of the file that an argument names.
fn of_file(argument: usize, outcome: io::Result<()>) -> Result<(), Failure> {
    outcome.map_err(|error| Failure::File(FileError::File { argument, error }))
}

// Writes the bytes to the new file that an argument names.
pub fn save_file(
    files: &impl Files,
    argument: usize,
    path: &[u8],
    bytes: &[u8],
) -> Result<(), Failure> {
    of_file(argument, files::save(files, path, bytes))
}

// Writes the list to a file that was made: four bytes for a cell, the least first.
fn put_spans<F: Write + OpenFile + Drop>(mut file: F, spans: &[u32]) -> io::Result<()> {
    for cell in spans {
        files::put(&mut file, &cell.to_le_bytes())?;
    }
    files::finish(file)
}

// Writes the list to a new file, which is taken away again where that fails.
fn save_spans(files: &impl Files, path: &[u8], spans: &[u32]) -> io::Result<()> {
    let file = files::create(files, path)?;
    let written = put_spans(file, spans);
    if written.is_err() {
        // The file's failure counts, and not this one's.
        let _ = files::remove(files, path);
    }
    written
}

// Writes the copy and the list to the new files that the verb's second and third argument name: both, or neither.
pub fn save<R: Env + Files>(rt: &R, copy: &[u8], spans: &[u32]) -> Result<(), Failure> {
    let mut first = files::buffer();
    let mut second = files::buffer();
    let (n, m) = both(
        files::name(rt, SECOND, &mut first),
        files::name(rt, THIRD, &mut second),
    )?;
    save_file(rt, SECOND, &first[..n], copy)?;
    let listed = save_spans(rt, &second[..m], spans);
    if listed.is_err() {
        let _ = files::remove(rt, &first[..n]);
    }
    of_file(THIRD, listed)
}
