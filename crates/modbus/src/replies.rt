// Replies, each sealed with its CRC.
ghost use Rattle.std.specs.Prelude.{◌≡◌, ◌+◌, ◌*◌, ◌≤◌, length};
ghost use Rattle.std.proofs.lemmas.List.Edits.{sets};
ghost use Rattle.modbus.specs.Replies.{word_bytes, top_bit, registers_body, link_body, exception_body};
ghost use Rattle.modbus.specs.Says.{Seals, Sends, Serves, Links};

use crate::{Ask, Asked, REGISTERS, SendError, crc};

// Puts words from a place on, each high byte first.
fn put_words(out: &mut [u8], at: usize, words: &[u16])
    requires { at + 2 * length words.now ≤ length out.old }
    ensures { out.new ≡ sets out.old at (word_bytes words.now) }
{
    let mut to = at;
    for &w in words {
        out[to] = (w / 256) as u8;
        out[to + 1] = (w % 256) as u8;
        to += 2;
    }
}

// Writes a body and its CRC from the buffer's start, low byte first; R8 leaves the buffer as it was.
fn send(body: &[u8], out: &mut [u8]) -> Result<usize, SendError>
    requires { length body.now ≤ 254 }
    ensures { Seals body.now out.old out.new result }
{
    let n = body.len();
    if out.len() < n + 2 {
        return Err(SendError::R8);
    }
    let c = crc::crc16(body);
    out[..n].copy_from_slice(body);
    out[n] = (c % 256) as u8;
    out[n + 1] = (c / 256) as u8;
    Ok(n + 2)
}

// 03 is answered with a byte count and the registers.
fn send_registers(address: u8, words: &[u16], out: &mut [u8]) -> Result<usize, SendError>
    requires { length words.now ≤ 11 }
    ensures { Seals (registers_body address words.now) out.old out.new result }
{
    let n = 2 * words.len();
    let mut body = [0u8; 25];
    body[0] = address;
    body[1] = 3;
    body[2] = n as u8;
    put_words(&mut body, 3, words);
    send(&body[..n + 3], out)
}

// 06 is answered by its echo.
fn send_link(address: u8, on: bool, out: &mut [u8]) -> Result<usize, SendError>
    ensures { Seals (link_body address on) out.old out.new result }
{
    let body = [address, 6, 0, 10, 0, on as u8];
    send(&body, out)
}

// The function with its top bit set.
fn top_bit(function: u8) -> u8
    ensures { result ≡ top_bit function }
{
    if 128 <= function {
        function
    } else {
        function + 128
    }
}

// An exception is the function with its top bit set and one byte.
fn send_exception(address: u8, function: u8, number: u8, out: &mut [u8]) -> Result<usize, SendError>
    ensures { Seals (exception_body address function number) out.old out.new result }
{
    let body = [address, top_bit(function), number];
    send(&body, out)
}

// Writes the reply to what was asked into a lent buffer, or R8; the words are the registers 0 to 10.
fn reply(address: u8, words: [u16; REGISTERS], ask: Ask, out: &mut [u8]) -> Result<usize, SendError>
    ensures { Sends address words ask out.old out.new result }
{
    match ask {
        Ask::Registers { start, quantity } => {
            let from = usize::min(start as usize, REGISTERS);
            let to = usize::min(start as usize + quantity as usize, REGISTERS);
            send_registers(address, &words[from..to], out)
        }
        Ask::Link(on) => send_link(address, on, out),
        Ask::Exception { function, number } => send_exception(address, function, number, out),
    }
}

// Serves what was asked: a link start for all has no reply, whatever the buffer; all else has one, or R8.
pub fn serve(
    address: u8,
    words: [u16; REGISTERS],
    asked: Asked,
    out: &mut [u8],
) -> Result<usize, SendError>
    ensures { Serves address words asked out.old out.new result }
{
    match asked {
        Asked::Ours(ask) => reply(address, words, ask, out),
        Asked::ForAll(_) => Ok(0),
    }
}

// The link start after what was asked: a write sets or clears it, and nothing else does.
pub fn link_after(asked: Asked, now: bool) -> bool
    ensures { Links asked now result }
{
    match asked {
        Asked::ForAll(on) => on,
        Asked::Ours(ask) => match ask {
            Ask::Link(on) => on,
            _ => now,
        },
    }
}
