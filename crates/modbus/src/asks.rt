// What a frame asks.
ghost use Rattle.std.specs.Prelude.{◌≡◌, ◌≤◌, ◌<◌, length};
ghost use Rattle.modbus.specs.Asks.{exception, word_at, length_good, crc_good, address_good, read_ask, write_ask, ask_by, heard_by};
ghost use Rattle.modbus.specs.Says.{asks_of, says_hearing, Hears};

use crate::{Ask, Asked, HearError, LINK, REGISTERS, crc};

// A number of the data, high byte first.
fn word_at(frame: &[u8], i: usize) -> u16
    requires { i < 256 }
    ensures { result ≡ word_at frame.now i }
{
    let high = text::byte_at(frame, i);
    let low = text::byte_at(frame, i + 1);
    high as u16 * 256 + low as u16
}

// The length is 8 for 03 and 06, else 4..256.
fn length_good(frame: &[u8]) -> bool
    ensures { result ≡ length_good frame.now }
{
    let n = frame.len();
    let function = text::byte_at(frame, 1);
    if (function == 3) | (function == 6) {
        return n == 8;
    }
    (4 <= n) & (n <= 256)
}

// The last two bytes are the CRC of those before them, low byte first.
fn crc_good(frame: &[u8]) -> bool
    requires { 4 ≤ length frame.now }
    ensures { result ≡ crc_good frame.now }
{
    let n = frame.len() - 2;
    let c = crc::crc16(&frame[..n]);
    (frame[n] == (c % 256) as u8) & (frame[n + 1] == (c / 256) as u8)
}

// The address is ours, or 0, which is for all.
fn address_good(address: u8, frame: &[u8]) -> bool
    ensures { result ≡ address_good address frame.now }
{
    let to = text::byte_at(frame, 0);
    (to == address) | (to == 0)
}

// What an exception answers.
fn exception_of(function: u8, number: u8) -> Ask
    ensures { asks_of result ≡ exception function number }
{
    Ask::Exception { function, number }
}

// 03: the quantity (exception 03), then the registers (02).
fn read_ask(start: u16, quantity: u16) -> Ask
    ensures { asks_of result ≡ read_ask start quantity }
{
    if quantity < 1 || 125 < quantity {
        return exception_of(3, 3);
    }
    if REGISTERS < start as usize + quantity as usize {
        return exception_of(3, 2);
    }
    Ask::Registers { start, quantity }
}

// 06: the register (exception 02), then the value (03).
fn write_ask(register: u16, value: u16) -> Ask
    ensures { asks_of result ≡ write_ask register value }
{
    if register != LINK {
        return exception_of(6, 2);
    }
    if 1 < value {
        return exception_of(6, 3);
    }
    Ask::Link(value == 1)
}

// What a frame asks by its function; any other than 03 and 06 is exception 01.
fn ask_by(function: u8, frame: &[u8]) -> Ask
    ensures { asks_of result ≡ ask_by function frame.now }
{
    match function {
        3 => read_ask(word_at(frame, 2), word_at(frame, 4)),
        6 => write_ask(word_at(frame, 2), word_at(frame, 4)),
        _ => exception_of(function, 1),
    }
}

// A good write to address 0 acts; anything else sent there is silent.
fn heard_by(everyone: bool, ask: Ask) -> Result<Asked, HearError>
    ensures { says_hearing result ≡ heard_by everyone (asks_of ask) }
{
    if !everyone {
        return Ok(Asked::Ours(ask));
    }
    let Ask::Link(on) = ask else {
        return Err(HearError::R17);
    };
    Ok(Asked::ForAll(on))
}

// What a frame asks of the slave with an address, or R17.
pub fn hear(address: u8, frame: &[u8]) -> Result<Asked, HearError>
    ensures { Hears address frame.now result }
{
    if !length_good(frame) || !crc_good(frame) || !address_good(address, frame) {
        return Err(HearError::R17);
    }
    let ask = ask_by(text::byte_at(frame, 1), frame);
    heard_by(text::byte_at(frame, 0) == 0, ask)
}
