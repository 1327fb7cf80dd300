// The numbers and bytes of a call, read at a place of its line.
#![tactic(auto)]

ghost use Rattle.std.specs.Prelude.{◌≡◌, true, ◌+◌, ◌≤◌, length};
ghost use Rattle.operands.specs.Numbers.{ReadsSigned, MakesSet};
ghost use Rattle.operands.specs.Bytes.{is_hex, standing, CountsBytes};

use settings::Settings;

// The greatest number.
pub const GREATEST: u32 = 4294967295;

const MINUS: u8 = b'-';

// A tab and a number that may begin with a minus, at a place, with the place after it; 0 has none.
pub fn signed_at(s: &[u8], at: usize) -> Option<(i32, usize)>
    ensures { ReadsSigned s.now at result }
{
    if text::byte_at(s, at) != text::TAB {
        return None;
    }
    if text::byte_at(s, at + 1) != MINUS {
        let (v, next) = text::number_at(s, at + 1, 2147483647)?;
        return Some((v as i32, next));
    }
    let (v, next) = text::number_at(s, at + 2, 2147483648)?;
    if v == 0 {
        return None;
    }
    Some(((0 - v as i64) as i32, next))
}

// The set of the first 17 of a row, in the table's order, and a product code.
pub fn set_of(row: [u32; 19], product: u32) -> Settings
    ensures { MakesSet row product result }
{
    Settings {
        algorithm: row[0],
        capacity: row[1],
        dose: row[2],
        pc: row[3],
        pf: row[4],
        level: row[5],
        p7: row[6],
        p8: row[7],
        p9: row[8],
        p11: row[9],
        o: row[10],
        in1: row[11],
        in2: row[12],
        in3: row[13],
        address: row[14],
        serial: row[15],
        point: row[16],
        product,
    }
}

// Whether a byte is a hexadecimal digit, in upper case.
fn is_hex(b: u8) -> bool
    ensures { result ≡ is_hex b }
{
    text::is_digit(b) | ((b'A' <= b) & (b <= b'F'))
}

// Whether the 8 bytes from `at` on are hexadecimal digits: all are looked at, which a compiler does at once.
fn all_hex(s: &[u8], at: usize) -> bool
    requires { at + 8 ≤ length s.now }
    ensures { result ≡ true → standing s.now at ≡ 4 + standing s.now (at + 8) }
{
    let mut good = true;
    for k in 0..4 {
        good = good & is_hex(s[at + 2 * k]) & is_hex(s[at + 2 * k + 1]);
    }
    good
}

// How many bytes stand behind the letter and the tab, where `had` of them stand before place `at`.
// It and `count` go by `while`: a range by steps takes a fifth more instructions (docs/SPEED.md).
fn count_from(s: &[u8], at: usize, had: usize) -> usize
    requires { (had ≤ at) × (at ≤ length s.now + 2) × (had + standing s.now at ≡ standing s.now 2) }
    ensures { CountsBytes s.now result }
{
    let mut p = at;
    let mut n = had;
    while p + 1 < s.len() {
        if !is_hex(s[p]) {
            return n;
        }
        if !is_hex(s[p + 1]) {
            return n;
        }
        n += 1;
        p += 2;
    }
    n
}

// How many bytes stand behind the letter and the tab.
pub fn count(s: &[u8]) -> usize
    ensures { CountsBytes s.now result }
{
    let mut p: usize = 2;
    let mut n: usize = 0;
    while p + 8 <= s.len() {
        if !all_hex(s, p) {
            return count_from(s, p, n);
        }
        n += 4;
        p += 8;
    }
    count_from(s, p, n)
}
