// An entry of the journal: the text of a D or an H line of either form, or of the V line, written into a lent buffer.
#![tactic(auto)]

ghost use Rattle.std.specs.Prelude.{◌≡◌, [], ◌∷◌, ◌+◌, ◌≤◌, length};
ghost use Rattle.laws.specs.Decimal.{decimal};
ghost use Rattle.text.specs.Scan.{TAB};
ghost use Rattle.journal.specs.Line.{version_text, text_of, product_most, in_range};
ghost use Rattle.journal.specs.LineLaws.{product_text};
ghost use Rattle.journal.specs.declared.Form.TheVariants.{Old};
ghost use Rattle.journal.specs.declared.Line.TheVariants.{Dose, On};
ghost use Rattle.entry.specs.Says.{WritesLine, WritesVersion};
ghost use Rattle.entry.specs.Store.{FieldLength, ProductLength, Stores};

use journal::{D, Form, H, Line, TWO, V};
use text::{LF, TAB};

// Why a line is not written: a value is out of range, or the buffer has no room.
#[derive(Clone, Copy, Debug, PartialEq, Eq)]
pub enum WriteError {
    R10,
    R8,
}

// The greatest product of a line: an old one has none but 0.
fn product_most(form: Form) -> u32
    ensures { result ≡ product_most form }
{
    match form {
        Form::Old => 0,
        Form::New => journal::PRODUCT_MOST,
    }
}

// Each value is at most its field's greatest.
fn in_range(form: Form, line: Line) -> bool
    ensures { result ≡ in_range form line }
{
    match line {
        Line::Dose {
            hour,
            count,
            amount,
            settled,
            product,
        } => {
            (hour <= journal::HOUR_MOST)
                & (count <= journal::COUNT_MOST)
                & (amount <= journal::AMOUNT_MOST)
                & (settled <= journal::SETTLED_MOST)
                & (product <= product_most(form))
        }
        Line::On { hour } => hour <= journal::HOUR_MOST,
    }
}

// How many bytes a tab and a number take.
fn field_len(v: u32) -> usize
    ensures { FieldLength v result }
{
    1 + text::decimal_len(v as u64)
}

// How many bytes the product's field takes: none in an old line.
fn product_len(form: Form, product: u32) -> usize
    ensures { ProductLength form product result }
{
    match form {
        Form::Old => 0,
        Form::New => field_len(product),
    }
}

// How many bytes a line takes: its letter, its fields and its LF.
fn text_len(form: Form, line: Line) -> usize
    ensures { result ≡ length (text_of form line) }
{
    match line {
        Line::Dose {
            hour,
            count,
            amount,
            settled,
            product,
        } => {
            2 + field_len(hour)
                + field_len(count)
                + field_len(amount)
                + field_len(settled)
                + product_len(form, product)
        }
        Line::On { hour } => 2 + field_len(hour),
    }
}

// A byte stored at a place that has room for it.
fn store_byte(out: &mut [u8], at: usize, b: u8) -> usize
    requires { at + 1 ≤ length out.old }
    ensures { Stores out.old at (b ∷ []) out.new result }
{
    text::put_byte(out, at, b)
}

// A tab and a number stored at a place that has room for them.
fn store_field(out: &mut [u8], at: usize, v: u32) -> usize
    requires { at + (1 + length (decimal v)) ≤ length out.old }
    ensures { Stores out.old at (TAB ∷ decimal v) out.new result }
{
    let after_tab = store_byte(out, at, TAB);
    text::put_decimal(out, after_tab, v as u64)
}

// The product's field stored at a place that has room for it: nothing in an old line.
fn store_product(out: &mut [u8], at: usize, form: Form, product: u32) -> usize
    requires { at + length (product_text form product) ≤ length out.old }
    ensures { Stores out.old at (product_text form product) out.new result }
{
    match form {
        Form::Old => at,
        Form::New => store_field(out, at, product),
    }
}

// A D line stored from the start.
fn store_dose(
    out: &mut [u8],
    form: Form,
    hour: u32,
    count: u32,
    amount: u32,
    settled: u32,
    product: u32,
) -> usize
    requires { length (text_of form (Dose hour count amount settled product)) ≤ length out.old }
    ensures { Stores out.old 0 (text_of form (Dose hour count amount settled product)) out.new result }
{
    let after_letter = store_byte(out, 0, D);
    let after_hour = store_field(out, after_letter, hour);
    let after_count = store_field(out, after_hour, count);
    let after_amount = store_field(out, after_count, amount);
    let after_settled = store_field(out, after_amount, settled);
    let after_product = store_product(out, after_settled, form, product);
    store_byte(out, after_product, LF)
}

// An H line stored from the start; it is the same in both forms.
fn store_on(out: &mut [u8], hour: u32) -> usize
    requires { length (text_of Old (On hour)) ≤ length out.old }
    ensures { Stores out.old 0 (text_of Old (On hour)) out.new result }
{
    let after_letter = store_byte(out, 0, H);
    let after_hour = store_field(out, after_letter, hour);
    store_byte(out, after_hour, LF)
}

// A line stored from the start of a buffer that has room for it; the place after it is its length.
fn store_line(out: &mut [u8], form: Form, line: Line) -> usize
    requires { length (text_of form line) ≤ length out.old }
    ensures { Stores out.old 0 (text_of form line) out.new result }
{
    match line {
        Line::Dose {
            hour,
            count,
            amount,
            settled,
            product,
        } => store_dose(out, form, hour, count, amount, settled, product),
        Line::On { hour } => store_on(out, hour),
    }
}

// A line of a form written into a lent buffer: its length, or R10, then R8.
pub fn write(form: Form, line: Line, out: &mut [u8]) -> Result<usize, WriteError>
    ensures { WritesLine form line result out.old out.new }
{
    if !in_range(form, line) {
        return Err(WriteError::R10);
    }
    if out.len() < text_len(form, line) {
        return Err(WriteError::R8);
    }
    Ok(store_line(out, form, line))
}

// The V line stored from the start.
fn store_version(out: &mut [u8]) -> usize
    requires { 4 ≤ length out.old }
    ensures { Stores out.old 0 version_text out.new result }
{
    let after_letter = store_byte(out, 0, V);
    let after_tab = store_byte(out, after_letter, TAB);
    let after_number = store_byte(out, after_tab, TWO);
    store_byte(out, after_number, LF)
}

// The V line written into a lent buffer: its length, or R8 where it has no room.
pub fn write_version(out: &mut [u8]) -> Result<usize, WriteError>
    ensures { WritesVersion result out.old out.new }
{
    if out.len() < journal::VERSION_LEN {
        return Err(WriteError::R8);
    }
    Ok(store_version(out))
}
