// The journal: its V, D and H lines in two forms, their reader, the order of their hours, and what refuses a journal.
#![tactic(auto)]

ghost use Rattle.std.specs.Prelude.{◌≡◌};
ghost use Rattle.laws.specs.Pick.{pick};
ghost use Rattle.journal.specs.Line.{versioned, is_version, line_of, whole};
ghost use Rattle.journal.specs.Journal.{closes};
ghost use Rattle.journal.specs.Fields.{product_from};
ghost use Rattle.journal.specs.Says.{says_one};
ghost use Rattle.journal.specs.Promises.{StandsAt, ReadsLine, Heads, CountsFields, MakesLine, HoursLine, Begins, TakesLine, BreaksOrder, GoesFar, Names};

use text::{LF, TAB};

// The form of a journal: without a V line, its D lines have no product; or with one, and its D lines have it last.
#[derive(Clone, Copy, Debug, PartialEq, Eq)]
pub enum Form {
    Old,
    New,
}

// A line: a completed dose, or that the box was on for all of an hour.
#[derive(Clone, Copy, Debug, PartialEq, Eq)]
pub enum Line {
    Dose {
        hour: u32,
        count: u32,
        amount: u32,
        settled: u32,
        product: u32,
    },
    On {
        hour: u32,
    },
}

// A line by itself: the V line of the new form, or a line with an hour.
#[derive(Clone, Copy, Debug, PartialEq, Eq)]
pub enum Entry {
    Version,
    Line(Line),
}

// Some bytes are no line.
#[derive(Clone, Copy, Debug, PartialEq, Eq)]
pub enum LineError {
    R10,
}

// What stands before the first line with an hour: so many bytes and lines, by the journal's form.
#[derive(Clone, Copy, Debug, PartialEq, Eq)]
pub struct Head {
    pub form: Form,
    pub bytes: usize,
    pub lines: usize,
}

// Why a journal is refused, with the line.
#[derive(Clone, Copy, Debug, PartialEq, Eq)]
pub enum Refusal {
    R10(usize),
    R11(usize),
    R12(usize),
    R13,
}

// A refusal's number, and the line that it names.
#[derive(Clone, Copy, Debug, PartialEq, Eq)]
pub struct Named {
    pub number: u64,
    pub line: u64,
}

// What the lines so far say of the hours: whether there are any, whether the last one is closed by an H, the first hour and the last.
#[derive(Clone, Copy, Debug, PartialEq, Eq)]
pub struct Past {
    pub begun: bool,
    pub closed: bool,
    pub first: u32,
    pub last: u32,
}

// The letters that lines begin with.
pub const D: u8 = 68;

pub const H: u8 = 72;

pub const V: u8 = 86;

// The number of the new form, as the V line has it.
pub const TWO: u8 = 50;

// The V line has so many bytes.
pub const VERSION_LEN: usize = 4;

const VERSION: [u8; VERSION_LEN] = [V, TAB, TWO, LF];

// The greatest values of a line's fields after its letter: hour, count, amount, settled, product.
pub const HOUR_MOST: u32 = 9999999;

pub const COUNT_MOST: u32 = 999999;

pub const AMOUNT_MOST: u32 = 1800000;

pub const SETTLED_MOST: u32 = 1;

pub const PRODUCT_MOST: u32 = 255;

// A line has at most so many fields after its letter.
pub const FIELDS: usize = 5;

pub const MOST: [u32; FIELDS] = [
    HOUR_MOST,
    COUNT_MOST,
    AMOUNT_MOST,
    SETTLED_MOST,
    PRODUCT_MOST,
];

// A journal has at most so many bytes.
pub const ROOM: usize = 65536;

// So many bytes are read of one, so that a longer one is seen.
pub const READ: usize = ROOM + 1;

// A line's hour is less than so many hours above the first line's.
pub const SPAN: usize = 744;

// Whether some bytes begin with the V line.
fn has_version(bytes: &[u8]) -> bool
    ensures { result ≡ versioned bytes.now }
{
    bytes.starts_with(&VERSION)
}

// A journal's form, and what stands before its first line with an hour.
pub fn head_of(bytes: &[u8]) -> Head
    ensures { Heads bytes.now result }
{
    if has_version(bytes) {
        return Head {
            form: Form::New,
            bytes: VERSION_LEN,
            lines: 1,
        };
    }
    Head {
        form: Form::Old,
        bytes: 0,
        lines: 0,
    }
}

// How many fields follow a letter: after D 4 in the old form and 5 in the new one, 1 after H, else none.
pub fn fields_after(form: Form, letter: u8) -> usize
    ensures { CountsFields form letter result }
{
    match letter {
        D => match form {
            Form::Old => 4,
            Form::New => 5,
        },
        H => 1,
        _ => 0,
    }
}

// The product of a dose of n fields: its last one if it has five, else 0.
fn product_from(n: usize, last: u32) -> u32
    ensures { result ≡ product_from n last }
{
    if n == 5 { last } else { 0 }
}

// The line of n fields.
pub fn line_from(n: usize, got: [u32; FIELDS]) -> Line
    ensures { MakesLine n got result }
{
    if n == 1 {
        return Line::On { hour: got[0] };
    }
    Line::Dose {
        hour: got[0],
        count: got[1],
        amount: got[2],
        settled: got[3],
        product: product_from(n, got[4]),
    }
}

// The line with an hour at a place and the place after its LF.
pub fn line_at(form: Form, bytes: &[u8], at: usize) -> Option<(Line, usize)>
    ensures { StandsAt form bytes.now at result }
{
    let fields = fields_after(form, text::byte_at(bytes, at));
    if fields == 0 {
        return None;
    }
    let mut got = [0u32; FIELDS];
    let mut p = at + 1;
    for k in 0..fields {
        let Some((v, next)) = text::field_at(bytes, p, MOST[k]) else {
            return None;
        };
        got[k] = v;
        p = next;
    }
    if text::byte_at(bytes, p) != LF {
        return None;
    }
    Some((line_from(fields, got), p + 1))
}

// A line with an hour by itself, its LF included.
fn read_dated(form: Form, bytes: &[u8]) -> Result<Entry, LineError>
    ensures { says_one result ≡ whole (line_of form bytes.now) }
{
    let Some((line, next)) = line_at(form, bytes, 0) else {
        return Err(LineError::R10);
    };
    if next < bytes.len() {
        return Err(LineError::R10);
    }
    Ok(Entry::Line(line))
}

// Whether some bytes are the V line and nothing else.
fn is_version(bytes: &[u8]) -> bool
    ensures { result ≡ is_version bytes.now }
{
    bytes.len() == VERSION_LEN && has_version(bytes)
}

// A line by itself, its LF included: in the new form the V line too.
pub fn read_line(form: Form, bytes: &[u8]) -> Result<Entry, LineError>
    ensures { ReadsLine form bytes.now result }
{
    match form {
        Form::Old => read_dated(form, bytes),
        Form::New => {
            if is_version(bytes) {
                return Ok(Entry::Version);
            }
            read_dated(form, bytes)
        }
    }
}

// The hour of a line.
pub fn hour_in(line: Line) -> u32
    ensures { HoursLine line result }
{
    match line {
        Line::Dose { hour, .. } => hour,
        Line::On { hour } => hour,
    }
}

// Whether a line closes its hour, as an H does.
fn closes_hour(line: Line) -> bool
    ensures { result ≡ closes line }
{
    matches!(line, Line::On { .. })
}

// Before the first line.
pub fn no_past() -> Past
    ensures { Begins result }
{
    Past {
        begun: false,
        closed: false,
        first: 0,
        last: 0,
    }
}

// The first line's hour, after one line more.
fn first_hour(past: Past, hour: u32) -> u32
    ensures { result ≡ pick past.begun past.first hour }
{
    if past.begun { past.first } else { hour }
}

// After one line more.
pub fn past_after(past: Past, line: Line) -> Past
    ensures { TakesLine past line result }
{
    let hour = hour_in(line);
    Past {
        begun: true,
        closed: closes_hour(line),
        first: first_hour(past, hour),
        last: hour,
    }
}

// R11: the hour goes back, or an H has closed it.
pub fn out_of_order(past: Past, hour: u32) -> bool
    ensures { BreaksOrder past hour result }
{
    past.begun
        && if past.closed {
            hour <= past.last
        } else {
            hour < past.last
        }
}

// R12: the hour is 744 or more above the first line's.
pub fn too_far(past: Past, hour: u32) -> bool
    ensures { GoesFar past hour result }
{
    past.begun && past.first as u64 + SPAN as u64 <= hour as u64
}

// The number of a refusal and the line that it names, 0 for R13.
pub fn number_and_line(refusal: Refusal) -> Named
    ensures { Names refusal result }
{
    match refusal {
        Refusal::R10(line) => Named {
            number: 10,
            line: line as u64,
        },
        Refusal::R11(line) => Named {
            number: 11,
            line: line as u64,
        },
        Refusal::R12(line) => Named {
            number: 12,
            line: line as u64,
        },
        Refusal::R13 => Named {
            number: 13,
            line: 0,
        },
    }
}
