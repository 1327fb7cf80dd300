// Numbers in a row, and bytes, of a line.
ghost use Rattle.std.specs.Prelude.{◌≡◌, true, ◌≤◌, ◌<◌, length, take, drop, get_or};
ghost use Rattle.std.proofs.lemmas.List.Edits.{sets};
ghost use Rattle.operands.specs.Bytes.{is_hex, hex_value, carried};
ghost use Rattle.calls.specs.Call.{numbers_field};
ghost use Rattle.calls.specs.Reading.{Counts};

use operands::GREATEST;

// The value of a hexadecimal digit: its last four bits, and 9 more for a letter, which is above 63.
fn hex_value(b: u8) -> u8
    requires { is_hex b ≡ true }
    ensures { (result ≡ hex_value b) × (result ≤ 15) }
{
    b % 16 + 9 * (b / 64)
}

// The k-th of the bytes that stand there.
pub(crate) fn byte_of(s: &[u8], k: usize) -> u8
    requires { k < length (carried s.now) }
    ensures { result ≡ get_or (carried s.now) k 0 }
{
    hex_value(s[2 + 2 * k]) * 16 + hex_value(s[3 + 2 * k])
}

// The first n of the bytes that stand there, stored at the start of `out`.
pub(crate) fn store(s: &[u8], n: usize, out: &mut [u8])
    requires bytes { n ≤ length (carried s.now) }
    requires room { n ≤ length out.old }
    ensures { out.new ≡ sets out.old 0 (take n (carried s.now)) }
{
    for k in 0..n {
        out[k] = byte_of(s, k);
    }
}

// n numbers, a tab before each, and the place after them; those of the row behind them are 0.
pub(crate) fn numbers_at(s: &[u8], at: usize, n: usize) -> Option<([u32; 19], usize)>
    requires { n ≤ 19 }
    ensures { Counts s.now (numbers_field n (drop at s.now)) result }
{
    let mut values = [0u32; 19];
    let mut p = at;
    for k in 0..n {
        let (v, next) = text::field_at(s, p, GREATEST)?;
        values[k] = v;
        p = next;
    }
    Some((values, p))
}
