// Reads a program text from a file or from standard input, and prints the listing of its entries and of the tools used, or
// its refusal.
#![tactic(auto)]

mod output; // listings, and failures

use crate::output::{print_listing, tell};
use listings::{LISTING, MOST_READ, NUMBERS, list_text, read_text};
use std::env::FillError;
use std::fs::File;
use std::io::{ErrorKind, Read};
use std::rt::{Env, Files};
use std::{io, str};
use tallies::FIGURES;

// The decimal point setting: lengths and angles without a point count hundredths.
const SETTING: i32 = 1;

// The room for the name of a plate. The system takes no longer one.
const NAME: usize = 4_096;

// The system's number for a name that is too long.
const NAME_TOO_LONG: i32 = 36;

// Expands a text and prints its listing.
fn run<R: Print + Eprint>(rt: &R, text: &[u8]) {
    let mut list = [0i32; NUMBERS];
    let mut tally = [0u64; FIGURES];
    let mut page = [0u8; LISTING];
    let listing = list_text(SETTING, text, &mut list, &mut tally, &mut page);
    print_listing(rt, listing);
}

// Says on standard error how the program is used.
fn tell_usage(rt: &impl Eprint) {
    let _ = eprintln!(rt; "usage: hitlist [PLATE]");
    let _ = eprintln!(rt;
        "Prints the entries of the punch code in the file PLATE, or in standard input, and the tools used."
    );
}

// Reads an open file to its end and prints the listing of its text. A text that can't be read to its end has no listing.
fn run_file<R: Print + Eprint, F: Read>(rt: &R, file: &mut F, name: &str) {
    let mut text = [0u8; MOST_READ];
    match read_text(file, &mut text) {
        Ok(length) => run(rt, &text[..length]),
        Err(error) => tell(rt, name, error),
    }
}

// The file with a name.
fn run_path<R: Files + Print + Eprint>(rt: &R, name: &str) {
    match File::open(rt, name) {
        Ok(mut file) => run_file(rt, &mut file, name),
        Err(error) => tell(rt, name, error),
    }
}

// Says on standard error that the first argument names no plate, and why.
fn tell_name(rt: &impl Eprint, error: io::Error) {
    tell(rt, "the name of the plate", error);
}

// The file that an argument names, unless it is an option. The library opens names in UTF-8 alone.
fn run_argument<R: Files + Print + Eprint>(rt: &R, argument: &[u8]) {
    if argument.starts_with(b"-") {
        tell_usage(rt);
        return;
    }
    match str::from_utf8(argument) {
        Ok(name) => run_path(rt, name),
        Err(_) => tell_name(rt, io::Error::from(ErrorKind::InvalidFilename)),
    }
}

// Argument 0 is the program itself, and the first names the plate; where there is none, it is standard input.
fn main(rt: HostRuntime) {
    let mut name = [0u8; NAME];
    if !matches!(rt.arg(2, &mut []), Err(FillError::NotPresent)) {
        tell_usage(&rt);
        return;
    }
    match rt.arg(1, &mut name) {
        Ok(length) => run_argument(&rt, &name[..length]),
        Err(FillError::NotPresent) => run_file(&rt, &mut rt.stdin(), "standard input"),
        Err(FillError::TooLong) => tell_name(&rt, io::Error::from_raw_os_error(NAME_TOO_LONG)),
    }
}
