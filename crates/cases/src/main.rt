// Lists each stored scenario file that an argument names. A file whose name begins with "cut_" is listed at each
// length, from 0 up.
#![tactic(auto)]

use std::env::{Env, FillError};
use std::io::Write;
use std::rt::Files;
use std::{fs, io};

// Bytes of an argument at most.
const NAME_BYTES: usize = 4096;

// Lists a whole file: a line with its name, then its listing.
fn list_whole<W: Write>(to: &mut W, name: &str, file: &[u8]) -> io::Result<()> {
    writeln!(to, "# {name}")?;
    lines::list(file, to)
}

// Prints a number by `decimal`, since the library's own printing divides.
fn print_number<W: Write>(to: &mut W, x: u64) -> io::Result<()> {
    let mut digits = [0u8; decimal::DIGITS];
    let n = decimal::decimal_into(&mut digits, 0, x);
    to.write_all(&digits[..n])
}

// Lists the first bytes of a file: a line with its name and how many they are, then their listing.
fn list_part<W: Write>(to: &mut W, name: &str, part: &[u8]) -> io::Result<()> {
    write!(to, "# {name} ")?;
    print_number(to, part.len() as u64)?;
    writeln!(to)?;
    lines::list(part, to)
}

// Lists one file of data/, and says so on standard error where it cannot be opened.
fn run_case<R: Files + Print + Eprint>(rt: &R, name: &str) -> io::Result<()> {
    let mut from = match fs::open(rt, name) {
        Ok(from) => from,
        Err(e) => return eprintln!(rt; "{name}: {e}"),
    };
    let mut file = [0u8; rules::FILE_LIMIT + 1];
    let n = lines::read(&mut from, &mut file)?;
    let mut to = io::writer(rt);
    if name.starts_with("cut_") {
        for length in 0..n {
            list_part(&mut to, name, &file[..length])?;
        }
    }
    list_whole(&mut to, name, &file[..n])
}

// Lists the file that argument i names. Answers whether there is such an argument. One that is too long for a path,
// or no text, names no file.
fn run_argument<R: Env + Files + Print + Eprint>(rt: &R, i: usize) -> io::Result<bool> {
    let mut name = [0u8; NAME_BYTES];
    let length = match rt.arg(i, &mut name) {
        Ok(length) => length,
        Err(FillError::TooLong) => 0,
        Err(FillError::NotPresent) => return Ok(false),
    };
    match str::from_utf8(&name[..length]) {
        Ok(name) => run_case(rt, name)?,
        Err(e) => rt.eprintln(e)?,
    }
    Ok(true)
}

// Lists each argument's file, in order.
fn main(rt: HostRuntime) -> io::Result<()> {
    for i in 1..usize::MAX {
        if !run_argument(&rt, i)? {
            break;
        }
    }
    Ok(())
}
