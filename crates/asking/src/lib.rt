// What a request on the line asks, stage by stage up to R4, and its reply; no controller and no settings.
#![tactic(auto)]

ghost use Rattle.std.specs.Prelude.{◌≡◌, length};
ghost use Rattle.paper.specs.Answer.{Fills};
ghost use Rattle.asking.specs.Asking.{ours, reply_bytes, framed_of};
ghost use Rattle.asking.specs.Says.{Hears, Addresses, Codes, Times, Zeroes, Sends, Holds, says_sent, read_as, built_as, wrote_as};

use field::Field;
use frame::{ReadError, WriteError};
use message::{BuildError, Form, Parts, SplitError};

// The operation code that zeroes.
pub const C0: u8 = 0xC0;
// The code that asks for the weight by p7.
pub const C2: u8 = 0xC2;
// The code that asks for the weight by p8.
pub const C3: u8 = 0xC3;
// The code that asks for the inputs.
pub const C4: u8 = 0xC4;
// The code that asks for the outputs.
pub const C5: u8 = 0xC5;

// Why a request is refused, each with its place.
#[derive(Clone, Copy, Debug, PartialEq, Eq)]
pub enum RequestError {
    R9(usize),
    R6(usize),
    R5(usize),
    R7(usize),
    R3(usize),
    R4(usize),
    R8(usize),
}

// For a caller that hands the reader's refusal on by `?`; `hear` keeps it beside the place.
impl From<ReadError> for RequestError {
    ghost from_gives = { λ e r. r ≡ read_as e };

    fn from(e: ReadError) -> RequestError {
        match e {
            ReadError::R9(place) => RequestError::R9(place),
            ReadError::R6(place) => RequestError::R6(place),
        }
    }
}

// What stands in the bytes offered: the first finished body, taken apart or R6, with the place of the second closing FF; or none, with R9's place.
#[derive(Clone, Copy, Debug, PartialEq, Eq)]
pub struct Heard {
    pub place: usize,
    pub body: Option<Result<Parts, SplitError>>,
}

// What a reply holds beside the address form and the operation code.
#[derive(Clone, Copy)]
pub enum Reply {
    Nothing,
    Byte(u8),
    Weight(Field),
}

// Why a reply is not framed: a form that its bytes would not give back, which has no number in document 01, R14 or R8.
#[derive(Clone, Copy, Debug, PartialEq, Eq)]
pub enum SendError {
    Improper,
    R14,
    R8,
}

impl From<BuildError> for SendError {
    ghost from_gives = { λ e r. r ≡ built_as e };

    fn from(e: BuildError) -> SendError {
        match e {
            BuildError::Improper => SendError::Improper,
            BuildError::R14 => SendError::R14,
        }
    }
}

impl From<WriteError> for SendError {
    ghost from_gives = { λ e r. r ≡ wrote_as e };

    fn from(e: WriteError) -> SendError {
        match e {
            WriteError::R14 => SendError::R14,
            WriteError::R8 => SendError::R8,
        }
    }
}

// The first finished body in the bytes offered, taken apart.
pub fn hear(bytes: &[u8]) -> Heard
    ensures { Hears bytes.now result }
{
    match frame::read_frame(bytes) {
        Ok(found) => Heard {
            place: found.place,
            body: Some(message::split_body(&found.body[..found.len])),
        },
        Err(ReadError::R6(place)) => Heard {
            place,
            body: Some(Err(SplitError::R6)),
        },
        Err(ReadError::R9(place)) => Heard { place, body: None },
    }
}

// The address or serial is matched with its setting.
fn is_ours(form: Form, address: u32, serial: u32) -> bool
    ensures { result ≡ ours form address serial }
{
    match form {
        Form::Address(a) => a as u32 == address,
        Form::Serial(n) => n == serial,
    }
}

// R5: address not ours.
pub fn address_stage(
    place: usize,
    form: Form,
    address: u32,
    serial: u32,
) -> Result<(), RequestError>
    ensures { Addresses place form address serial result }
{
    if is_ours(form, address, serial) {
        Ok(())
    } else {
        Err(RequestError::R5(place))
    }
}

// R7: other operation code than C0, C2, C3, C4, C5, or data present.
pub fn code_stage(place: usize, parts: Parts) -> Result<(), RequestError>
    ensures { Codes place parts result }
{
    let op = parts.operation;
    let known = (op == C0) | ((C2 <= op) & (op <= C5));
    if known & (parts.to <= parts.from) {
        Ok(())
    } else {
        Err(RequestError::R7(place))
    }
}

// R3: not in time.
pub fn ready_stage(place: usize, timely: bool) -> Result<(), RequestError>
    ensures { Times place timely result }
{
    if timely {
        Ok(())
    } else {
        Err(RequestError::R3(place))
    }
}

// R4: the samples do not allow it.
pub fn zero_stage(place: usize, zeroable: bool) -> Result<(), RequestError>
    ensures { Zeroes place zeroable result }
{
    if zeroable {
        Ok(())
    } else {
        Err(RequestError::R4(place))
    }
}

// A reply's data, the first so many of four bytes: none, one, or the weight's three bytes and CON.
fn data_of(holds: Reply) -> ([u8; 4], usize)
    ensures { Holds (reply_bytes holds) result }
{
    match holds {
        Reply::Nothing => ([0; 4], 0),
        Reply::Byte(byte) => ([byte, 0, 0, 0], 1),
        Reply::Weight(f) => ([f.low, f.middle, f.high, f.con], 4),
    }
}

// Frames a body of address, operation code and data into the lent buffer.
fn frame_reply(
    form: Form,
    operation: u8,
    values: &[u8],
    reply: &mut [u8],
) -> Result<usize, SendError>
    ensures { Fills (says_sent result) (framed_of form operation values.now (length reply.old)) reply.old reply.new }
{
    match message::build_body(form, operation, values) {
        Ok(body) => Ok(frame::write_frame(&body.bytes[..body.len], reply)?),
        Err(error) => Err(SendError::from(error)),
    }
}

// Frames a reply into the lent buffer: the request's address form, its operation code and the data.
pub fn write_reply(
    form: Form,
    operation: u8,
    holds: Reply,
    reply: &mut [u8],
) -> Result<usize, SendError>
    ensures { Sends form operation holds reply.old reply.new result }
{
    let (values, len) = data_of(holds);
    frame_reply(form, operation, &values[..len], reply)
}

#[cfg(test)]
mod tests {
    use super::*;

    #[test]
    fn read_error_passes_through(rt: HostRuntime) {
        for (read, request) in [
            (ReadError::R9(0), RequestError::R9(0)),
            (ReadError::R9(7), RequestError::R9(7)),
            (ReadError::R6(9), RequestError::R6(9)),
        ] {
            assert_eq!(rt; RequestError::from(read), request);
        }
    }
}
