// The pieces of an answer's text, each put at a place of a lent buffer and answering the place after it. A piece without room is left out.
#![tactic(auto)]

ghost use Rattle.std.specs.Prelude.{◌≡◌, ◌+◌, ◌*◌, ◌<◌, ◌≤◌, length};
ghost use Rattle.io.specs.Counts.{IsPrefixLen};
ghost use Rattle.pieces.specs.Signed.{PutsSigned};

// So many bytes of a buffer, at most all.
pub fn within(n: usize, buffer: &[u8]) -> usize
    ensures { IsPrefixLen result buffer.now }
{
    n.min(buffer.len())
}

// The buffer of so much room that a call is lent, at the start of `spare`: each byte A5, as before a call.
pub fn lend(spare: &mut [u8], room: usize) {
    let n = within(room, spare);
    spare[..n].fill(0xA5);
}

// Bytes for a reply.
pub fn no_reply() -> [u8; 64]
    ensures { 64 ≡ length result }
{
    [0u8; 64]
}

// A tab and a number.
fn field(out: &mut [u8], at: usize, n: u64) -> usize {
    let after = text::put_byte(out, at, text::TAB);
    text::put_decimal(out, after, n)
}

// A tab, a minus where the number is below 0, and its size.
pub fn signed(out: &mut [u8], at: usize, v: i32) -> usize
    ensures { PutsSigned out.old at v out.new result }
{
    let mut p = text::put_byte(out, at, text::TAB);
    if v < 0 {
        p = text::put_byte(out, p, b'-');
    }
    text::put_decimal(out, p, u64::from(v.unsigned_abs()))
}

// A tab and the 16 digits of a number's bits.
pub fn bits(out: &mut [u8], at: usize, n: u64) -> usize {
    let after = text::put_byte(out, at, text::TAB);
    text::put_hex(out, after, 16, n)
}

// The numbers of an answer, a tab before each.
pub fn numbers(out: &mut [u8], at: usize, numbers: &[u64]) -> usize {
    let mut p = at;
    for &n in numbers {
        p = field(out, p, n);
    }
    p
}

// The letter of an answer and its numbers.
pub fn put_words(out: &mut [u8], at: usize, letter: u8, values: &[u64]) -> usize {
    let after = text::put_byte(out, at, letter);
    numbers(out, after, values)
}

// A tab and a word.
pub fn word(out: &mut [u8], at: usize, letters: &[u8]) -> usize {
    let mut p = text::put_byte(out, at, text::TAB);
    for &b in letters {
        p = text::put_byte(out, p, b);
    }
    p
}

// The end of the line.
pub fn end(out: &mut [u8], at: usize) -> usize {
    text::put_byte(out, at, text::LF)
}

// The ASCII code of a hexadecimal digit, in upper case.
fn digit(d: u8) -> u8
    requires { d < 16 }
{
    if d < 10 { 48 + d } else { 55 + d }
}

// Bytes stored from the start of `out`, two digits a byte.
fn store(out: &mut [u8], bytes: &[u8]) {
    for (two, &b) in out.chunks_exact_mut(2).zip(bytes) {
        two[0] = digit(b / 16);
        two[1] = digit(b % 16);
    }
}

// Bytes, two digits a byte.
fn digits(out: &mut [u8], at: usize, bytes: &[u8]) -> usize {
    if out.len() < at || (out.len() - at) / 2 < bytes.len() {
        return at;
    }
    store(&mut out[at..], bytes);
    at + 2 * bytes.len()
}

// A tab, bytes, and the end of the line.
pub fn bytes(out: &mut [u8], at: usize, bytes: &[u8]) -> usize {
    let start = text::put_byte(out, at, text::TAB);
    let after = digits(out, start, bytes);
    end(out, after)
}

// A line of an answer's letter and its numbers.
pub fn line(out: &mut [u8], at: usize, letter: u8, values: &[u64]) -> usize {
    let after = put_words(out, at, letter, values);
    end(out, after)
}

// A line of an answer's letter, its numbers and a buffer.
pub fn shown(out: &mut [u8], at: usize, letter: u8, values: &[u64], buffer: &[u8]) -> usize {
    let after = put_words(out, at, letter, values);
    bytes(out, after, buffer)
}

// The same of two numbers, put without a list of them, which costs a line request less.
pub fn reply(
    out: &mut [u8],
    at: usize,
    letter: u8,
    first: u64,
    second: u64,
    buffer: &[u8],
) -> usize {
    let after_letter = text::put_byte(out, at, letter);
    let after_first = field(out, after_letter, first);
    let after_second = field(out, after_first, second);
    bytes(out, after_second, buffer)
}
