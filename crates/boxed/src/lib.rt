// The answers of the box: their letter and numbers, and the text of a reason.
#![tactic(auto)]

mod causes;

ghost use Rattle.std.specs.Prelude.{◌≡◌, true, ◌+◌, ◌≤◌, ◌<◌, length};

use acts::Answer;
use asking::RequestError;
use controller::{Fault, Outputs, RestartError, Sent, TickError};
use counters::Record;
use panel::PollError;
use setup::{ResetError, SetError};

// D, the outputs, count, amount, settled, product
fn dose(out: &mut [u8], at: usize, outputs: u8, record: Record) -> usize {
    let numbers = [
        u64::from(outputs),
        u64::from(record.count),
        u64::from(record.amount),
        u64::from(record.settled),
        u64::from(record.product),
    ];
    pieces::line(out, at, b'D', &numbers)
}

// F, number, channel (0 for F21)
fn fault(out: &mut [u8], at: usize, why: Fault) -> usize {
    match why {
        Fault::F14(channel) => pieces::line(out, at, b'F', &[14, u64::from(channel)]),
        Fault::F21 => pieces::line(out, at, b'F', &[21, 0]),
    }
}

// Whether 4 bytes have room from `at` on.
fn has_four(len: usize, at: usize) -> bool
    ensures { result ≡ true → at + 4 ≤ len }
{
    if len < at {
        return false;
    }
    4 <= len - at
}

// O, a tab, a digit and LF, the line of most ticks.
fn put_digit(out: &mut [u8], at: usize, digit: u8) -> usize
    requires { (at + 4 ≤ length out.old) × (digit < 10) }
{
    out[at] = b'O';
    out[at + 1] = text::TAB;
    out[at + 2] = 48 + digit;
    out[at + 3] = text::LF;
    at + 4
}

// The line of O and the outputs.
fn put_outputs(out: &mut [u8], at: usize, outputs: u8) -> usize {
    if outputs < 10 && has_four(out.len(), at) {
        return put_digit(out, at, outputs);
    }
    pieces::line(out, at, b'O', &[u64::from(outputs)])
}

// The line of a tick's answer: O, D, F or R.
fn put_tick(out: &mut [u8], at: usize, said: Result<Outputs, TickError>) -> usize {
    match said {
        Ok(told) => match told.dose {
            None => put_outputs(out, at, told.outputs),
            Some(record) => dose(out, at, told.outputs, record),
        },
        Err(TickError::Fault(why)) => fault(out, at, why),
        Err(TickError::R1) => pieces::line(out, at, b'R', &[1]),
    }
}

// The line of a tick's answer, put at `at`; it answers the place after it.
pub fn say_tick(out: &mut [u8], at: usize, said: Result<Outputs, TickError>) -> usize
    ensures { result ≤ length out.new }
{
    let end = put_tick(out, at, said);
    pieces::within(end, out)
}

// P place length, or R number place, and a buffer.
fn request(out: &mut [u8], at: usize, said: Result<Sent, RequestError>, buffer: &[u8]) -> usize {
    let (letter, first, second) = match said {
        Ok(Sent { place, len }) => (b'P', place, len),
        Err(RequestError::R9(place)) => (b'R', 9, place),
        Err(RequestError::R6(place)) => (b'R', 6, place),
        Err(RequestError::R5(place)) => (b'R', 5, place),
        Err(RequestError::R7(place)) => (b'R', 7, place),
        Err(RequestError::R3(place)) => (b'R', 3, place),
        Err(RequestError::R4(place)) => (b'R', 4, place),
        Err(RequestError::R8(place)) => (b'R', 8, place),
    };
    pieces::reply(out, at, letter, first as u64, second as u64, buffer)
}

// The line of a line request's answer with the buffer that it was lent, so many of the first bytes of `spare`, put at `at`; it answers the place after it.
pub fn say_request(
    out: &mut [u8],
    at: usize,
    said: Result<Sent, RequestError>,
    room: usize,
    spare: &[u8],
) -> usize
    ensures { result ≤ length out.new }
{
    let n = pieces::within(room, spare);
    let end = request(out, at, said, &spare[..n]);
    pieces::within(end, out)
}

// A, R 3 or R 2 row.
fn set(out: &mut [u8], answer: Result<(), SetError>) -> usize {
    match answer {
        Ok(()) => pieces::line(out, 0, b'A', &[]),
        Err(SetError::R3) => pieces::line(out, 0, b'R', &[3]),
        Err(SetError::R2(row)) => pieces::line(out, 0, b'R', &[2, u64::from(row)]),
    }
}

// A or R 3.
fn reset(out: &mut [u8], answer: Result<(), ResetError>) -> usize {
    match answer {
        Ok(()) => pieces::line(out, 0, b'A', &[]),
        Err(ResetError::R3) => pieces::line(out, 0, b'R', &[3]),
    }
}

// A, R 2 row or R 15.
fn restart(out: &mut [u8], answer: Result<(), RestartError>) -> usize {
    match answer {
        Ok(()) => pieces::line(out, 0, b'A', &[]),
        Err(RestartError::R2(row)) => pieces::line(out, 0, b'R', &[2, u64::from(row)]),
        Err(RestartError::R15) => pieces::line(out, 0, b'R', &[15]),
    }
}

// P length, or R number, and the buffer that was lent.
pub fn modbus(out: &mut [u8], answer: Result<usize, PollError>, buffer: &[u8]) -> usize {
    let (letter, number) = match answer {
        Ok(len) => (b'P', len as u64),
        Err(PollError::R17) => (b'R', 17),
        Err(PollError::R8) => (b'R', 8),
    };
    pieces::shown(out, 0, letter, &[number], buffer)
}

// The text of an order's answer; ? where it was answered otherwise.
pub fn put_order(out: &mut [u8], said: Answer) -> usize {
    match said {
        Answer::Link => pieces::line(out, 0, b'A', &[]),
        Answer::Set(taken) => set(out, taken),
        Answer::Reset(cleared) => reset(out, cleared),
        Answer::Counters(kept) => {
            let numbers = [u64::from(kept.count), u64::from(kept.total)];
            pieces::line(out, 0, b'Q', &numbers)
        }
        Answer::Restart(restarted) => restart(out, restarted),
        Answer::Why(why) => causes::line(out, why),
        _ => pieces::line(out, 0, b'?', &[]),
    }
}
