// Runs the golden cases. The arguments are triples: the decimal point setting, the length of the lent list in numbers, and
// the name of a file. For each triple the program prints the name, the setting and the length, and then the listing or the
// refusal, as hitlist prints it, and a line more if the tally has figures other than zero that these do not show.
#![tactic(auto)]

ghost use Rattle.std.specs.Prelude.{◌≤◌, length};

use listings::{LISTING, MOST_READ, NUMBERS, list_text, read_text};
use std::env::FillError;
use std::fs::File;
use std::io::Read;
use std::rt::{Env, Files};
use std::str::FromStr;
use std::{io, str};
use tallies::{FIGURES, TOOL_FIGURES};

// The room for an argument. The system takes no longer name of a file.
const ARGUMENT: usize = 4_096;

// What a tally is full of when it is lent: it makes no difference what that is.
const STALE: u64 = 7;

// Whether all figures of a tool are shown or zero. The listing of entries shows those of a tool with hits, a refusal shows none.
fn is_shown(figures: &[u64], accepted: bool) -> bool {
    let hit = figures.first().is_some_and(|&hits| hits != 0);
    accepted && hit || figures.iter().all(|&figure| figure == 0)
}

// Expands a text at a setting into a list and prints its listing, and a line more if its tally has figures other than zero that
// the listing does not show.
fn run(rt: &impl Print, setting: i32, text: &[u8], list: &mut [i32]) -> io::Result<()>
    requires { length list.old ≤ NUMBERS }
{
    let mut tally = [STALE; FIGURES];
    let mut page = [0u8; LISTING];
    let listing = list_text(setting, text, list, &mut tally, &mut page);
    rt.write_all(listing)?;
    let accepted = listing.starts_with(b"ENTRIES");
    if !tally
        .chunks_exact(TOOL_FIGURES)
        .all(|figures| is_shown(figures, accepted))
    {
        println!(rt; "TALLY NOT CLEARED")?;
    }
    Ok(())
}

// Runs the text of an open file at a setting, with a list of so many numbers.
fn run_text<F: Read>(rt: &impl Print, file: &mut F, setting: i32, numbers: usize) -> io::Result<()>
    requires { numbers ≤ NUMBERS }
{
    let mut text = [0u8; MOST_READ];
    let length = read_text(file, &mut text)?;
    let mut list = [0i32; NUMBERS];
    run(rt, setting, &text[..length], &mut list[..numbers])
}

// Runs the text of the file with a name at a setting, with a list of so many numbers. The library opens names in UTF-8
// alone.
fn run_named<R: Files + Print>(rt: &R, name: &[u8], setting: i32, numbers: usize) -> io::Result<()>
    requires { numbers ≤ NUMBERS }
{
    let Ok(path) = str::from_utf8(name) else {
        return println!(rt; "MISSING");
    };
    match File::open(rt, path) {
        Ok(mut file) => run_text(rt, &mut file, setting, numbers),
        Err(_) => println!(rt; "MISSING"),
    }
}

// Argument i in a buffer, and no bytes where it is missing or too long.
fn argument<'a>(rt: &impl Env, i: usize, buffer: &'a mut [u8]) -> &'a [u8]
    ensures { length result.now ≤ length buffer.old }
{
    let length = rt.arg(i, buffer).unwrap_or(0);
    &buffer[..length]
}

// The number that a word writes in digits, with a minus before them where its type has negative numbers, if it has room there.
fn number<N: FromStr>(word: &[u8]) -> Option<N>
where
    N::Err: Drop,
{
    if word.starts_with(b"+") {
        return None;
    }
    str::from_utf8(word).ok()?.parse().ok()
}

// The number that argument i writes.
fn number_argument<N: FromStr>(rt: &impl Env, i: usize) -> Option<N>
where
    N::Err: Drop,
{
    let mut word = [0u8; ARGUMENT];
    number(argument(rt, i, &mut word))
}

// Runs the file that argument `name` names, at a setting and with a list of so many numbers, and prints these.
fn run_case<R: Env + Files + Print>(
    rt: &R,
    name: usize,
    setting: Option<i32>,
    numbers: Option<usize>,
) -> io::Result<()> {
    let mut buffer = [0u8; ARGUMENT];
    let path = argument(rt, name, &mut buffer);
    rt.write_all(path)?;
    let Some(setting) = setting else {
        return println!(rt; " NO SETTING");
    };
    match numbers {
        Some(numbers) if numbers <= NUMBERS => {
            println!(rt; " {setting} {numbers}")?;
            run_named(rt, path, setting, numbers)
        }
        _ => println!(rt; " NO LENGTH"),
    }
}

// Whether the program has an argument of this number.
fn is_given(rt: &impl Env, i: usize) -> bool {
    !matches!(rt.arg(i, &mut []), Err(FillError::NotPresent))
}

// Argument 0 is the program itself; the triples follow. A name may be missing at the last.
fn main(rt: HostRuntime) -> io::Result<()> {
    for i in 0..usize::MAX / 3 {
        if !is_given(&rt, 3 * i + 2) {
            break;
        }
        run_case(
            &rt,
            3 * i + 3,
            number_argument(&rt, 3 * i + 1),
            number_argument(&rt, 3 * i + 2),
        )?;
    }
    Ok(())
}
