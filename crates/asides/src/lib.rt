// The text of the answers of the writers and readers, which need no box.
#![tactic(auto)]

mod hours;

ghost use Rattle.io.specs.Counts.{IsPrefixLen};

use calls::{Item, Use};
use field::{Field, FieldError, Weight};
use frame::ReadError;
use journal::{Entry, Form, Line, LineError};

// W: a frame written into a buffer, which is shown whole.
fn write_frame(out: &mut [u8], body: &[u8], buffer: &mut [u8]) -> usize {
    match frame::write_frame(body, buffer) {
        Ok(len) => pieces::shown(out, 0, b'P', &[len as u64], buffer),
        Err(frame::WriteError::R14) => pieces::shown(out, 0, b'R', &[14], buffer),
        Err(frame::WriteError::R8) => pieces::shown(out, 0, b'R', &[8], buffer),
    }
}

// D and H: a line of the new form written into a buffer, which is shown whole.
fn write_line(out: &mut [u8], line: Line, buffer: &mut [u8]) -> usize {
    match entry::write(Form::New, line, buffer) {
        Ok(len) => pieces::shown(out, 0, b'P', &[len as u64], buffer),
        Err(entry::WriteError::R10) => pieces::shown(out, 0, b'R', &[10, 0], buffer),
        Err(entry::WriteError::R8) => pieces::shown(out, 0, b'R', &[8], buffer),
    }
}

// X: the first finished body, or why there is none.
fn read_frame(out: &mut [u8], bytes: &[u8]) -> usize {
    match frame::read_frame(bytes) {
        Ok(found) => {
            let n = pieces::within(found.len, &found.body);
            let numbers = [found.place as u64, found.len as u64];
            pieces::shown(out, 0, b'P', &numbers, &found.body[..n])
        }
        Err(ReadError::R9(place)) => pieces::line(out, 0, b'R', &[9, place as u64]),
        Err(ReadError::R6(place)) => pieces::line(out, 0, b'R', &[6, place as u64]),
    }
}

// G: the four bytes of a weight, or R16.
fn write_field(out: &mut [u8], weight: Weight) -> usize {
    match field::write(weight) {
        Ok(f) => pieces::shown(out, 0, b'P', &[], &[f.low, f.middle, f.high, f.con]),
        Err(FieldError::R16) => pieces::line(out, 0, b'R', &[16]),
    }
}

// P, a weight, its flags and its point.
fn weight(out: &mut [u8], w: Weight) -> usize {
    let start = text::put_byte(out, 0, b'P');
    let after = pieces::signed(out, start, w.value);
    let numbers = [u64::from(w.stable), u64::from(w.over), u64::from(w.point)];
    let end = pieces::numbers(out, after, &numbers);
    pieces::end(out, end)
}

// K: the weight of four bytes, or R16.
fn read_field(out: &mut [u8], four: Field) -> usize {
    match field::read(four) {
        Ok(w) => weight(out, w),
        Err(FieldError::R16) => pieces::line(out, 0, b'R', &[16]),
    }
}

// D hour count amount settled, and in the new form the product; or H hour.
fn line(out: &mut [u8], form: Form, found: Line) -> usize {
    match found {
        Line::Dose {
            hour,
            count,
            amount,
            settled,
            product,
        } => {
            let numbers = [hour, count, amount, settled, product].map(u64::from);
            match form {
                Form::Old => pieces::line(out, 0, b'D', &numbers[..4]),
                Form::New => pieces::line(out, 0, b'D', &numbers),
            }
        }
        Line::On { hour } => pieces::line(out, 0, b'H', &[u64::from(hour)]),
    }
}

// l and m: the line of the old or of the new form that bytes are, V for the V line, or R10.
fn read_line(out: &mut [u8], form: Form, bytes: &[u8]) -> usize {
    match journal::read_line(form, bytes) {
        Ok(Entry::Version) => pieces::line(out, 0, b'V', &[]),
        Ok(Entry::Line(found)) => line(out, form, found),
        Err(LineError::R10) => pieces::line(out, 0, b'R', &[10, 1]),
    }
}

// The buffer of so much room that a writer is lent, at the start of `spare`: how many bytes it has.
fn lent(spare: &mut [u8], room: u32) -> usize
    ensures { IsPrefixLen result spare.new }
{
    pieces::lend(spare, room as usize);
    pieces::within(room as usize, spare)
}

// The answer to an item; a writer's buffer is the start of `spare`.
pub fn item(out: &mut [u8], item: Item, spare: &mut [u8]) -> usize {
    match item {
        Item::Weight(w) => write_field(out, w),
        Item::Field(four) => read_field(out, four),
        Item::Line(line, room) => {
            let n = lent(spare, room);
            write_line(out, line, &mut spare[..n])
        }
    }
}

// The answer to bytes and the number behind them; a writer's buffer is the start of `spare`.
pub fn bytes(out: &mut [u8], made: Use, number: u32, bytes: &[u8], spare: &mut [u8]) -> usize {
    match made {
        Use::WriteFrame => {
            let n = lent(spare, number);
            write_frame(out, bytes, &mut spare[..n])
        }
        Use::ReadFrame => read_frame(out, bytes),
        Use::ReadLine(form) => read_line(out, form, bytes),
        Use::Hour => hours::ask(out, bytes, number),
        Use::Hours => {
            let n = lent(spare, number);
            hours::print(out, bytes, &mut spare[..n])
        }
    }
}
