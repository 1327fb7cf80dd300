// What the week program prints for a journal and a first hour.
#![tactic(auto)]

ghost use Rattle.std.specs.Prelude.{◌≡◌, [], ◌+◌, ◌≤◌, length};
ghost use Rattle.std.proofs.lemmas.List.Edits.{sets};
ghost use Rattle.paper.specs.Answer.{in_room, Fills};
ghost use Rattle.text.specs.Put.{Puts};
ghost use Rattle.report.specs.Promises.{Holds};
ghost use Rattle.weekly.specs.Week.{first_of};
ghost use Rattle.sheet.specs.declared.PrintError.TheVariants.{Week};
ghost use Rattle.sheet.specs.Lines.{letter_of, day_text, days_text};
ghost use Rattle.sheet.specs.Says.{says_printed, given_first, error_text};
ghost use Rattle.sheet.specs.Counted.{CountsDay};
ghost use Rattle.sheet.specs.Promises.{PrintsSheet, ReadsFirst, Reports};

use report::Printout;
use text::{LF, TAB};
use weekly::{Day, Kind, WeekError};

// Why no week is printed: there is none, or the buffer is too short.
#[derive(Clone, Copy, Debug, PartialEq, Eq)]
pub enum PrintError {
    Week(WeekError),
    R8,
}

impl From<WeekError> for PrintError {
    ghost from_gives = { λ e r. r ≡ Week e };

    fn from(error: WeekError) -> PrintError {
        PrintError::Week(error)
    }
}

// So many bytes hold the report of any week.
pub const ENOUGH: usize = 140;

// A number that is no first hour.
const TOO_LATE: u32 = weekly::LATEST + 1;

// W, I or X; a function, since `impl From<Kind> for u8` could stand in weekly alone, which prints nothing.
fn letter_of(kind: Kind) -> u8
    ensures { result ≡ letter_of kind }
{
    match kind {
        Kind::Worked => b'W',
        Kind::Holiday => b'I',
        Kind::Unknown => b'X',
    }
}

// How many bytes a day's line has.
fn day_len(d: u64, day: Day) -> usize
    ensures { CountsDay d day result }
{
    text::decimal_len(d) + text::decimal_len(day.covered as u64) + text::decimal_len(day.sum) + 5
}

// A day's line.
fn put_day(out: &mut [u8], at: usize, d: u64, day: Day) -> usize
    requires { at + length (day_text d day) ≤ length out.old }
    ensures { Puts out.old at (day_text d day) out.new result }
{
    let mut p = text::put_decimal(out, at, d);
    p = text::put_byte(out, p, TAB);
    p = text::put_byte(out, p, letter_of(day.kind));
    p = text::put_byte(out, p, TAB);
    p = text::put_decimal(out, p, day.covered as u64);
    p = text::put_byte(out, p, TAB);
    p = text::put_decimal(out, p, day.sum);
    text::put_byte(out, p, LF)
}

// How many bytes the lines of seven days have.
fn text_len(days: [Day; 7]) -> usize
    ensures { result ≡ length (days_text 0 days) }
{
    let mut n = 0;
    for (d, day) in days.iter().enumerate() {
        n += day_len(d as u64, *day);
    }
    n
}

// The lines of seven days, stored from the buffer's start.
fn put_days(out: &mut [u8], days: [Day; 7])
    requires { length (days_text 0 days) ≤ length out.old }
    ensures { out.new ≡ sets out.old 0 (days_text 0 days) }
{
    let mut at = 0;
    for (d, day) in days.iter().enumerate() {
        at = put_day(out, at, d as u64, *day);
    }
}

// The lines of seven days, if they have room.
fn print_days(days: [Day; 7], out: &mut [u8]) -> Result<usize, PrintError>
    ensures { Fills (says_printed result) (in_room [] (length out.old) (days_text 0 days)) out.old out.new }
{
    let n = text_len(days);
    if out.len() < n {
        return Err(PrintError::R8);
    }
    put_days(out, days);
    Ok(n)
}

// The sheet of a journal's week from a first hour on, from the buffer's start, or a refusal that leaves the buffer as it was.
pub fn print(bytes: &[u8], first: u32, out: &mut [u8]) -> Result<usize, PrintError>
    ensures { PrintsSheet bytes.now first result out.old out.new }
{
    let days = weekly::days_of(bytes, first)?;
    print_days(days, out)
}

// The first hour alone on a line, whose LF is left out.
pub fn first_line(line: &[u8]) -> Option<u32>
    ensures { ReadsFirst line.now result }
{
    let (hour, next) = text::number_at(line, 0, weekly::LATEST)?;
    if next < line.len() {
        return None;
    }
    Some(hour)
}

// The first hour as a number: one that is too late where the line had none.
fn number_in(first: Option<u32>) -> u32
    ensures { first_of result ≡ given_first first }
{
    first.unwrap_or(TOO_LATE)
}

// The one line of why there is no week.
fn error_report(error: WeekError) -> Printout<ENOUGH>
    ensures { Holds (error_text error) result }
{
    match error {
        WeekError::Refused(refusal) => report::refusal_report(refusal),
        WeekError::R21 => report::refusal_line(21, 0),
    }
}

// What the week program prints for a first hour and a journal, which the first n of the bytes read are: its sheet, or the line of a refusal.
pub fn report(first: Option<u32>, bytes: &[u8; journal::READ], n: usize) -> Printout<ENOUGH>
    ensures { Reports first bytes.now n result }
{
    let hour = number_in(first);
    let mut out = [0u8; ENOUGH];
    let size = n.min(journal::READ);
    match print(&bytes[..size], hour, &mut out) {
        Ok(len) => Printout { bytes: out, len },
        Err(PrintError::Week(error)) => error_report(error),
        Err(PrintError::R8) => Printout { bytes: out, len: 0 },
    }
}
