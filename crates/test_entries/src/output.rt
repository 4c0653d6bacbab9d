// Lines of numbers in decimal with single blanks between.
use constants::numbered::Numbered;
use constants::refusal::Refused;
use std::io;
use std::io::Write;

// The number of an answer: 0 where nothing is refused.
pub fn number<T, E: Numbered>(answer: &Result<T, E>) -> u64 {
    match answer {
        Ok(_) => 0,
        Err(refused) => u64::from(refused.number()),
    }
}

// Where it is refused.
pub fn place<T>(answer: &Result<T, Refused>) -> u64 {
    match answer {
        Ok(_) => 0,
        Err(refused) => refused.place as u64,
    }
}

// The number, the place and the length of what was written.
pub fn written(answer: &Result<usize, Refused>) -> [u64; 3] {
    [number(answer), place(answer), answer.unwrap_or(0) as u64]
}

// Numbers that are not the last of their line.
pub fn numbers(to: &mut impl Write, numbers: &[u64]) -> io::Result<()> {
    for n in numbers {
        write!(to, "{n} ")?;
    }
    Ok(())
}

// The last number of a line.
pub fn last(to: &mut impl Write, n: u64) -> io::Result<()> {
    writeln!(to, "{n}")
}

// The line that ends the run: the case is cut, unknown or beyond the limits.
pub fn cut(to: &mut impl Write) -> io::Result<()> {
    writeln!(to, "cut")
}
