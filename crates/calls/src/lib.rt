// What a line of a script asks: one reader, and the calls that it answers.
#![tactic(auto)]

mod asks;
mod fields;

ghost use Rattle.std.specs.Prelude.{◌≡◌, ◌≤◌, length, drop, get_or};
ghost use Rattle.calls.specs.Call.{call_by};
ghost use Rattle.calls.specs.Reads.{Sizes, ReadsCall};
ghost use Rattle.calls.specs.Reading.{Asks};

use field::{Field, Weight};
use journal::{Form, Line};
use settings::Settings;

// An order to the box; it carries no bytes.
#[derive(Clone, Copy)]
pub enum Order {
    // The link start, set or cleared.
    Link(bool),
    Settings(Settings),
    Reset,
    Counters,
    // A restart: the set, the stored count and total.
    Restart(Settings, u32, u32),
    // Why an output is as it is.
    Why(u8),
}

// What a writer or reader is given; it needs no box and carries no bytes.
#[derive(Clone, Copy)]
pub enum Item {
    // A weight, for its writer.
    Weight(Weight),
    // Four bytes, for the weight's reader.
    Field(Field),
    // A line of a journal, for the writer of the new form, and the room of its buffer.
    Line(Line, u32),
}

// What a writer or reader makes of bytes; it needs no box.
#[derive(Clone, Copy)]
pub enum Use {
    // A frame of a body, into a buffer of some room.
    WriteFrame,
    ReadFrame,
    // One line of a form.
    ReadLine(Form),
    // One hour of a journal.
    Hour,
    // The hour program's text of a journal, into a buffer of some room.
    Hours,
}

// The call of a line, or that it is none. A call with bytes says how many stand at the start of the lent buffer.
#[derive(Clone, Copy)]
pub enum Call {
    // A tick: the sample and the inputs.
    Tick(i32, u8),
    // A line request on so many bytes, and the room of the reply buffer.
    Request(u32, u32),
    // A MODBUS frame of so many bytes, and the room of the reply buffer.
    Modbus(u32, u32),
    Order(Order),
    Item(Item),
    // A writer or reader on so many bytes, and its number: the room of a buffer or an hour, else 0.
    Bytes(Use, u32, u32),
    Unknown,
}

// So many bytes hold those of every line.
pub const BYTES: usize = 2048;

// The bytes of the longest line, its LF left out.
const LONGEST: usize = 4095;

// The call of a line that is no tick and no line request, by its letter; its bytes are only looked at.
fn call_of(line: &[u8]) -> Call
    requires line { length line.now ≤ 4095 }
    requires letter { (get_or line.now 0 0 ≡ 84 → ⊥) × (get_or line.now 0 0 ≡ 66 → ⊥) }
    ensures { Asks line.now (call_by (get_or line.now 0 0) (drop 1 line.now)) result }
{
    match text::byte_at(line, 0) {
        b'L' => asks::link(line),
        b'S' => asks::set(line),
        b'C' => asks::ended(line, 1, Call::Order(Order::Reset)),
        b'Q' => asks::ended(line, 1, Call::Order(Order::Counters)),
        b'N' => asks::restart(line),
        b'M' => asks::room(line, 64, |n, room| Call::Modbus(n, room)),
        b'Y' => asks::why(line),
        b'W' => asks::room(line, 600, |n, room| Call::Bytes(Use::WriteFrame, n, room)),
        b'X' => asks::alone(line, Use::ReadFrame),
        b'G' => asks::weight(line),
        b'K' => asks::four(line),
        b'D' => asks::dose(line),
        b'H' => asks::on(line),
        b'l' => asks::alone(line, Use::ReadLine(Form::Old)),
        b'm' => asks::alone(line, Use::ReadLine(Form::New)),
        b'u' => asks::room(
            line,
            operands::GREATEST,
            |n, hour| Call::Bytes(Use::Hour, n, hour),
        ),
        b'j' => asks::room(line, 2000, |n, room| Call::Bytes(Use::Hours, n, room)),
        _ => Call::Unknown,
    }
}

// How many bytes a call carries.
pub fn size_of(call: Call) -> usize
    ensures { Sizes call result }
{
    match call {
        Call::Request(n, _) => n as usize,
        Call::Modbus(n, _) => n as usize,
        Call::Bytes(_, n, _) => n as usize,
        _ => 0,
    }
}

// The call of a line, its LF left out; its bytes are stored at the start of `bytes`, which is left as it was where the line is no call. Ticks and line requests, of which most scripts are, go their own ways.
pub fn read(line: &[u8], bytes: &mut [u8]) -> Call
    ensures { ReadsCall line.now bytes.old bytes.new result }
{
    if bytes.len() < BYTES {
        return Call::Unknown;
    }
    if LONGEST < line.len() {
        return Call::Unknown;
    }
    let letter = text::byte_at(line, 0);
    if letter == b'T' {
        return asks::tick(line);
    }
    if letter == b'B' {
        let call = asks::room(line, 64, |n, room| Call::Request(n, room));
        fields::store(line, size_of(call), bytes);
        return call;
    }
    let call = call_of(line);
    fields::store(line, size_of(call), bytes);
    call
}
