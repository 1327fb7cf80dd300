// Tenso-M frames: the check byte, the frame writer and the frame reader.
#![tactic(auto)]

ghost use Rattle.std.specs.Prelude.{◌≡◌, ◌==◌, ◌+◌, ◌≤◌, length, take, get_or};
ghost use Rattle.std.proofs.lemmas.List.Edits.{sets};
ghost use Rattle.std.specs.List.{position};
ghost use Rattle.frame.specs.Check.{check, enter};
ghost use Rattle.frame.specs.Table.{entries};
ghost use Rattle.frame.specs.Frame.{sent_byte, sent, frame, fewest};
ghost use Rattle.frame.specs.Read.{grown, step, read_all, too_short, bad_body};
ghost use Rattle.frame.specs.Says.{ChecksTo, TellsFramable, Writes, ReadsFrame};
ghost use Rattle.frame.specs.Puts.{PutsBytes};
ghost use Rattle.frame.specs.Stands.{stands, Held, HoldsReading, before_mark, Copies};

mod table;

use table::TABLE;

// Why a body has no frame in the buffer.
#[derive(Clone, Copy, Debug, PartialEq, Eq)]
pub enum WriteError {
    R14,
    R8,
}

// A finished body of len bytes, and the place of the second closing FF; the places past the body are 0.
#[derive(Clone, Copy)]
pub struct Finished {
    pub place: usize,
    pub len: usize,
    pub body: [u8; 255],
}

// Why no body is read: R9 with its place, or R6 with the place of the second closing FF.
#[derive(Clone, Copy, Debug, PartialEq, Eq)]
pub enum ReadError {
    R9(usize),
    R6(usize),
}

// How far reading has come: the places of FF bytes and the length of the body.
#[derive(Clone, Copy)]
enum State {
    Seek,
    Lead(usize),
    Body {
        before: usize,
        len: usize,
    },
    Mark {
        before: usize,
        len: usize,
        last: usize,
    },
    Ended {
        len: usize,
        place: usize,
    },
}

// The table, made once for the bytes of a body.
fn made_table() -> [u8; 256]
    ensures { result ≡ entries 256 0 }
{
    TABLE
}

// A byte enters the check.
fn enter(table: &[u8; 256], s: u8, x: u8) -> u8
    requires { table.now ≡ entries 256 0 }
    ensures { result ≡ enter s x }
{
    table[s as usize] ^ x
}

// The check byte of a body.
pub fn check_byte(body: &[u8]) -> u8
    ensures { ChecksTo body.now result }
{
    let table = made_table();
    let mut c: u8 = 0;
    for x in body {
        c = enter(&table, c, *x);
    }
    enter(&table, c, 0)
}

// The first byte of a body; 0 where there is none.
fn first(body: &[u8]) -> u8
    ensures { result ≡ get_or body.now 0 0 }
{
    body.first().copied().unwrap_or(0)
}

// How few bytes a body has before its check.
fn fewest(body: &[u8]) -> usize
    ensures { result ≡ fewest body.now }
{
    if first(body) == 0 { 5 } else { 2 }
}

// Whether a body can be framed.
pub fn framable(body: &[u8]) -> bool
    ensures { TellsFramable body.now result }
{
    let first = first(body);
    let len = body.len();
    (first != 0xFF) & (first != 0xFE) & (fewest(body) <= len) & (len <= 254)
}

// How many bytes send a body byte.
fn byte_len(b: u8) -> usize
    ensures { result ≡ length (sent_byte b) }
{
    if b == 0xFF { 2 } else { 1 }
}

// How many bytes send a body.
fn sent_len(body: &[u8]) -> usize
    requires { length body.now ≤ 254 }
    ensures { result ≡ length (sent body.now) }
{
    let mut n: usize = 0;
    for b in body {
        n += byte_len(*b);
    }
    n
}

// The length of a body's frame; c is the body's check byte.
fn frame_len(body: &[u8], c: u8) -> usize
    requires { (length body.now ≤ 254) × (c ≡ check body.now) }
    ensures { result ≡ length (frame body.now) }
{
    sent_len(body) + byte_len(c) + 3
}

// Puts a body byte as it is sent, and answers the place after it.
fn put_byte(out: &mut [u8], at: usize, b: u8) -> usize
    requires { at + length (sent_byte b) ≤ length out.old }
    ensures { PutsBytes (sent_byte b) out.old out.new at result }
{
    out[at] = b;
    if b == 0xFF {
        out[at + 1] = 0xFE;
        return at + 2;
    }
    at + 1
}

// Puts a body as it is sent, and answers the place after it.
fn put_body(out: &mut [u8], at: usize, body: &[u8]) -> usize
    requires { at + length (sent body.now) ≤ length out.old }
    ensures { PutsBytes (sent body.now) out.old out.new at result }
{
    let mut to = at;
    for b in body {
        to = put_byte(out, to, *b);
    }
    to
}

// Puts a body's frame at the buffer's start; c is the body's check byte.
fn put_frame(out: &mut [u8], body: &[u8], c: u8)
    requires { (length (frame body.now) ≤ length out.old) × (c ≡ check body.now) }
    ensures { out.new ≡ sets out.old 0 (frame body.now) }
{
    out[0] = 0xFF;
    let at = put_body(out, 1, body);
    let end = put_byte(out, at, c);
    out[end] = 0xFF;
    out[end + 1] = 0xFF;
}

// Writes the frame of a body from the buffer's start; a refusal leaves the buffer as it was.
pub fn write_frame(body: &[u8], out: &mut [u8]) -> Result<usize, WriteError>
    ensures { Writes body.now out.old out.new result }
{
    if !framable(body) {
        return Err(WriteError::R14);
    }
    let c = check_byte(body);
    let n = frame_len(body, c);
    if out.len() < n {
        return Err(WriteError::R8);
    }
    put_frame(out, body, c);
    Ok(n)
}

// A body of n bytes grows by one, or is dropped.
fn grow(buf: &mut [u8], before: usize, n: usize, b: u8) -> State
    requires { (length buf.old ≡ 255) × (n ≤ 255) }
    ensures { HoldsReading result buf.new (grown before (take n buf.old) b) }
{
    if n < 255 {
        buf[n] = b;
        return State::Body { before, len: n + 1 };
    }
    State::Seek
}

// The byte b at place i is read.
fn step(st: State, buf: &mut [u8], i: usize, b: u8) -> State
    requires { Held st buf.old }
    ensures { HoldsReading result buf.new (step (stands st buf.old) i b) }
{
    match st {
        State::Seek => {
            if b == 0xFF {
                return State::Lead(i);
            }
            st
        }
        State::Lead(before) => {
            if b == 0xFF {
                return State::Lead(i);
            }
            if b == 0xFE {
                return st;
            }
            grow(buf, before, 0, b)
        }
        State::Body { before, len } => {
            if b == 0xFF {
                return State::Mark {
                    before,
                    len,
                    last: i,
                };
            }
            grow(buf, before, len, b)
        }
        State::Mark { before, len, last } => {
            if b == 0xFF {
                return State::Ended { len, place: i };
            }
            if b == 0xFE {
                return grow(buf, before, len, 0xFF);
            }
            grow(buf, last, 0, b)
        }
        State::Ended { .. } => st,
    }
}

// Where the first FF stands.
fn mark(bytes: &[u8]) -> Option<usize>
    ensures { result ≡ position (λ b. b == 0xFF) bytes.now }
{
    bytes.iter().position(|b| *b == 0xFF)
}

// How many bytes stand before the first FF.
fn before_mark(bytes: &[u8]) -> usize
    ensures { result ≡ before_mark bytes.now }
{
    mark(bytes).unwrap_or(bytes.len())
}

// Puts the first bytes into the room lent, as long as none is FF, and answers how many.
fn fill(bytes: &[u8], room: &mut [u8]) -> usize
    ensures { Copies bytes.now room.old room.new result }
{
    let most = usize::min(bytes.len(), room.len());
    let k = before_mark(&bytes[..most]);
    room[..k].copy_from_slice(&bytes[..k]);
    k
}

// Reads bytes up to the end of the first finished body, which is left at the buffer's start.
fn scan(bytes: &[u8], buf: &mut [u8]) -> State
    requires { length buf.old ≡ 255 }
    ensures { HoldsReading result buf.new (read_all bytes.now) }
{
    let mut st = State::Seek;
    let mut i: usize = 0;
    while i < bytes.len() {
        st = step(st, buf, i, bytes[i]);
        i += 1;
        match st {
            State::Ended { .. } => return st,
            State::Seek => i += before_mark(&bytes[i..]),
            State::Body { before, len } => {
                let k = fill(&bytes[i..], &mut buf[len..]);
                st = State::Body {
                    before,
                    len: len + k,
                };
                i += k;
            }
            _ => {}
        }
    }
    st
}

// Whether a finished body is too short.
fn too_short(body: &[u8]) -> bool
    ensures { result ≡ too_short body.now }
{
    body.len() <= fewest(body)
}

// Whether a finished body is too short or its check is not 0.
fn bad_body(body: &[u8]) -> bool
    ensures { result ≡ bad_body body.now }
{
    too_short(body) || check_byte(body) != 0
}

// Reads bytes up to the end of the first finished body, and answers that body or why there is none. Part of its caller, so that a body is not copied out of the answer (docs/SPEED.md).
#[inline(always)]
pub fn read_frame(bytes: &[u8]) -> Result<Finished, ReadError>
    ensures { ReadsFrame bytes.now result }
{
    let mut body = [0u8; 255];
    match scan(bytes, &mut body) {
        State::Seek => Err(ReadError::R9(bytes.len())),
        State::Lead(before) | State::Body { before, .. } | State::Mark { before, .. } => {
            Err(ReadError::R9(before))
        }
        State::Ended { len, place } => {
            if bad_body(&body[..len]) {
                return Err(ReadError::R6(place));
            }
            body[len..].fill(0);
            Ok(Finished { place, len, body })
        }
    }
}
