// Numbers as text: written into a lent buffer, and read at a place.
#![tactic(auto)]

ghost use Rattle.std.specs.Prelude.{◌≡◌, ◌+◌, ◌≤◌, ◌<◌, leb, length};
ghost use Rattle.std.proofs.lemmas.List.Edits.{sets};
ghost use Rattle.laws.specs.Decimal.{glyph, decimal, hex_of};
ghost use Rattle.text.specs.Put.{CountsDigits, PutsDecimal, PutsHex, PutsByte};
ghost use Rattle.text.specs.Scan.{IsLeast, StandsAt, TellsDigit, ReadsNumber, ReadsField};

// Fields are parted by tabs, each line ends in LF.
pub const TAB: u8 = 9;

pub const LF: u8 = 10;

// Whether k bytes have room from `at` on in a buffer of `len`.
fn has_room(len: usize, at: usize, k: usize) -> bool
    ensures { result ≡ leb (at + k) len }
{
    at <= len && k <= len - at
}

// The smaller of two.
pub fn least(a: usize, b: usize) -> usize
    ensures { IsLeast a b result }
{
    a.min(b)
}

// How many decimal digits n has.
pub fn decimal_len(n: u64) -> usize
    ensures { CountsDigits n result }
{
    let mut v = n;
    let mut k: usize = 1;
    while 10 <= v {
        v /= 10;
        k += 1;
    }
    k
}

// The decimal digits of n stored from `at` on, the last first; k is how many they are.
fn store_decimal(out: &mut [u8], at: usize, k: usize, n: u64)
    requires digits { k ≡ length (decimal n) }
    requires room { at + k ≤ length out.old }
    ensures { out.new ≡ sets out.old at (decimal n) }
{
    let mut v = n;
    for p in (at..at + k).rev() {
        out[p] = 48 + (v % 10) as u8;
        v /= 10;
    }
}

// The decimal digits of n put at `at`, if they have room.
pub fn put_decimal(out: &mut [u8], at: usize, n: u64) -> usize
    ensures { PutsDecimal out.old at n out.new result }
{
    let k = decimal_len(n);
    if has_room(out.len(), at, k) {
        store_decimal(out, at, k, n);
        return at + k;
    }
    at
}

// The ASCII code of a hexadecimal digit, in upper case.
fn hex_digit(d: u64) -> u8
    requires { d < 16 }
    ensures { result ≡ glyph d }
{
    if d < 10 { 48 + d as u8 } else { 55 + d as u8 }
}

// The last hexadecimal digits of n stored from `at` on, the last first.
fn store_hex(out: &mut [u8], at: usize, digits: usize, n: u64)
    requires { at + digits ≤ length out.old }
    ensures { out.new ≡ sets out.old at (hex_of digits n) }
{
    let mut v = n;
    for k in (0..digits).rev() {
        out[at + k] = hex_digit(v % 16);
        v /= 16;
    }
}

// The last hexadecimal digits of n put at `at`, if they have room.
pub fn put_hex(out: &mut [u8], at: usize, digits: usize, n: u64) -> usize
    ensures { PutsHex out.old at digits n out.new result }
{
    if has_room(out.len(), at, digits) {
        store_hex(out, at, digits, n);
        return at + digits;
    }
    at
}

// One byte put at `at`, if it has room.
pub fn put_byte(out: &mut [u8], at: usize, b: u8) -> usize
    ensures { PutsByte out.old at b out.new result }
{
    if at < out.len() {
        out[at] = b;
        return at + 1;
    }
    at
}

// The byte at a place, 0 past the end.
pub fn byte_at(s: &[u8], at: usize) -> u8
    ensures { StandsAt s.now at result }
{
    s.get(at).copied().unwrap_or(0)
}

// Whether a byte is a digit.
pub fn is_digit(b: u8) -> bool
    ensures { TellsDigit b result }
{
    b.is_ascii_digit()
}

// The number at a place and the place after it, each byte looked at once; it is refused as soon as it is above `most`.
// A `for` would be no plainer: the place is part of the answer, and the end of the bytes ends a number as another byte does.
pub fn number_at(s: &[u8], at: usize, most: u32) -> Option<(u32, usize)>
    ensures { ReadsNumber s.now at most result }
{
    let first = byte_at(s, at);
    if !is_digit(first) {
        return None;
    }
    if first <= 48 {
        return Some((0, at + 1));
    }
    let mut v = (first - 48) as u64;
    let mut i = at + 1;
    while v <= most as u64 {
        let b = byte_at(s, i);
        if !is_digit(b) {
            return Some((v as u32, i));
        }
        v = v * 10 + (b - 48) as u64;
        i += 1;
    }
    None
}

// A tab and a number at a place: its value and the place after it.
pub fn field_at(s: &[u8], at: usize, most: u32) -> Option<(u32, usize)>
    ensures { ReadsField s.now at most result }
{
    if byte_at(s, at) != TAB {
        return None;
    }
    number_at(s, at + 1, most)
}
