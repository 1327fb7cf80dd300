// What the hour program prints for a journal.
#![tactic(auto)]

ghost use Rattle.std.specs.Prelude.{◌≡◌, [], ◌∷◌, ◌+◌, ◌≤◌, length};
ghost use Rattle.std.proofs.lemmas.List.Edits.{sets};
ghost use Rattle.paper.specs.Answer.{in_room, Fills};
ghost use Rattle.text.specs.Put.{Puts};
ghost use Rattle.hourly.specs.Text.{row_m, row_text};
ghost use Rattle.report.specs.Rows.{tail_text};
ghost use Rattle.report.specs.Table.{says_shown, Summed, shown_of, text_by, Printable, hours_in};
ghost use Rattle.report.specs.Says.{says_printed};
ghost use Rattle.report.specs.declared.PrintError.TheVariants.{Refused};
ghost use Rattle.report.specs.Promises.{PrintsHours, PutsRefusal, HoldsRefusal, ReportsRefusal, Reports};

use hourly::{Hour, Products, Summary, Tally};
use journal::Refusal;
use text::{LF, TAB};

// Why no text is made: the journal is refused, or the buffer is too short.
#[derive(Clone, Copy, Debug, PartialEq, Eq)]
pub enum PrintError {
    Refused(Refusal),
    R8,
}

impl From<Refusal> for PrintError {
    ghost from_gives = { λ refusal e. e ≡ Refused refusal };

    fn from(refusal: Refusal) -> PrintError {
        PrintError::Refused(refusal)
    }
}

// So many bytes hold the report of any journal.
pub const ENOUGH: usize = 33480;

// A report: its bytes, how many they are, and 0 behind them.
#[derive(Clone, Copy)]
pub struct Printout<const N: usize> {
    pub bytes: [u8; N],
    pub len: usize,
}

// What is printed of an hour: its doses, their sum and the mean's bits; or I; or X.
#[derive(Clone, Copy)]
enum Shown {
    Measured { doses: u32, sum: u64, bits: u64 },
    Idle,
    Missing,
}

// What is printed of an hour.
fn shown_from(t: Tally) -> Shown
    requires { Summed t }
    ensures { says_shown result ≡ shown_of t }
{
    match hourly::hour_from(t) {
        Hour::Measured(f) => Shown::Measured {
            doses: t.doses,
            sum: f.sum as u64,
            bits: f64::to_bits(f.mean),
        },
        Hour::Idle => Shown::Idle,
        Hour::Missing => Shown::Missing,
    }
}

// M and the figures of a measured hour, behind the hour and its tab.
fn put_measured(out: &mut [u8], at: usize, doses: u64, sum: u64, bits: u64) -> usize
    requires { at + length (tail_text (row_m doses sum bits)) ≤ length out.old }
    ensures { Puts out.old at (tail_text (row_m doses sum bits)) out.new result }
{
    let mut p = text::put_byte(out, at, b'M');
    p = text::put_byte(out, p, TAB);
    p = text::put_decimal(out, p, doses);
    p = text::put_byte(out, p, TAB);
    p = text::put_decimal(out, p, sum);
    p = text::put_byte(out, p, TAB);
    p = text::put_hex(out, p, 16, bits);
    text::put_byte(out, p, LF)
}

// I or X.
fn put_letter(out: &mut [u8], at: usize, letter: u8) -> usize
    requires { at + 2 ≤ length out.old }
    ensures { Puts out.old at (letter ∷ 10 ∷ []) out.new result }
{
    let p = text::put_byte(out, at, letter);
    text::put_byte(out, p, LF)
}

// What stands behind the hour and its tab.
fn put_tail(out: &mut [u8], at: usize, row: Shown) -> usize
    requires { at + length (tail_text (says_shown row)) ≤ length out.old }
    ensures { Puts out.old at (tail_text (says_shown row)) out.new result }
{
    match row {
        Shown::Measured { doses, sum, bits } => put_measured(out, at, doses as u64, sum, bits),
        Shown::Idle => put_letter(out, at, b'I'),
        Shown::Missing => put_letter(out, at, b'X'),
    }
}

// An hour's row.
fn put_row(out: &mut [u8], at: usize, hour: u64, row: Shown) -> usize
    requires { at + length (row_text hour (says_shown row)) ≤ length out.old }
    ensures { Puts out.old at (row_text hour (says_shown row)) out.new result }
{
    let p = text::put_decimal(out, at, hour);
    let q = text::put_byte(out, p, TAB);
    put_tail(out, q, row)
}

// How many bytes an hour's row has: the mean takes 16, whatever it is, and is not divided for it.
fn row_len(hour: u64, t: Tally) -> usize
    requires { Summed t }
    ensures { result ≡ length (row_text hour (shown_of t)) }
{
    let n = text::decimal_len(hour);
    if t.holed {
        return n + 3;
    }
    if !t.on | (t.doses == 0) {
        return n + 3;
    }
    n + 22 + text::decimal_len(t.doses as u64) + text::decimal_len(t.sum as u64)
}

// How many bytes the rows of some hours have, the first of them given.
fn text_len(table: &[Tally], first: u32) -> usize
    requires { Printable table.now first }
    ensures { result ≡ length (text_by table.now first) }
{
    let mut n: usize = 0;
    for (k, &tally) in table.iter().enumerate() {
        n += row_len(first as u64 + k as u64, tally);
    }
    n
}

// The rows of some hours, stored from the buffer's start.
fn put_rows(out: &mut [u8], table: &[Tally], first: u32)
    requires printable { Printable table.now first }
    requires room { length (text_by table.now first) ≤ length out.old }
    ensures { out.new ≡ sets out.old 0 (text_by table.now first) }
{
    let mut at: usize = 0;
    for (k, &tally) in table.iter().enumerate() {
        at = put_row(out, at, first as u64 + k as u64, shown_from(tally));
    }
}

// How many hours are printed: none of an empty journal.
fn hours_in(found: Summary) -> usize
    requires { found.first ≤ found.last }
    ensures { result ≡ hours_in found }
{
    if found.lines == 0 {
        return 0;
    }
    (found.last - found.first) as usize + 1
}

// The text of some hours' tallies, if it has room.
fn print_table(table: &[Tally], first: u32, out: &mut [u8]) -> Result<usize, PrintError>
    requires { Printable table.now first }
    ensures { Fills (says_printed result) (in_room [] (length out.old) (text_by table.now first)) out.old out.new }
{
    let n = text_len(table, first);
    if out.len() < n {
        return Err(PrintError::R8);
    }
    put_rows(out, table, first);
    Ok(n)
}

// The hour program's text for some products, from the buffer's start, or a refusal that leaves the buffer as it was.
pub fn print(bytes: &[u8], products: Products, out: &mut [u8]) -> Result<usize, PrintError>
    ensures { PrintsHours products bytes.now result out.old out.new }
{
    let counted = hourly::tallies(bytes, products)?;
    let hours = hours_in(counted.found);
    print_table(&counted.table[..hours], counted.found.first, out)
}

// R, a refusal's number and its line, if they have room.
pub fn put_refused(out: &mut [u8], number: u64, line: u64) -> usize
    ensures { PutsRefusal out.old number line out.new result }
{
    let size = text::decimal_len(number) + text::decimal_len(line) + 4;
    if out.len() < size {
        return 0;
    }
    let mut p = text::put_byte(out, 0, b'R');
    p = text::put_byte(out, p, TAB);
    p = text::put_decimal(out, p, number);
    p = text::put_byte(out, p, TAB);
    p = text::put_decimal(out, p, line);
    text::put_byte(out, p, LF)
}

// The one line of a refusal, by its number and the line that it names.
pub fn refusal_line<const N: usize>(number: u64, line: u64) -> Printout<N>
    ensures { HoldsRefusal number line result }
{
    let mut bytes = [0u8; N];
    let len = put_refused(&mut bytes, number, line);
    Printout { bytes, len }
}

// The one line of a journal's refusal.
pub fn refusal_report<const N: usize>(refusal: Refusal) -> Printout<N>
    ensures { ReportsRefusal refusal result }
{
    let named = journal::number_and_line(refusal);
    refusal_line(named.number, named.line)
}

// What the hour program prints for a journal, which the first n of the bytes read are, and for some products: its text, or the line of its refusal.
pub fn report(bytes: &[u8; journal::READ], n: usize, products: Products) -> Printout<ENOUGH>
    ensures { Reports products bytes.now n result }
{
    let mut out = [0u8; ENOUGH];
    let size = n.min(journal::READ);
    match print(&bytes[..size], products, &mut out) {
        Ok(len) => Printout { bytes: out, len },
        Err(PrintError::Refused(refusal)) => refusal_report(refusal),
        Err(PrintError::R8) => Printout { bytes: out, len: 0 },
    }
}
