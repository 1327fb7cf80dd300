// Old journals to new and back: the same lines in the other form, written into a lent buffer.
#![tactic(auto)]

ghost use Rattle.std.specs.Prelude.{◌≡◌, ◌&&◌, ◌+◌, ◌≤◌, eqb, length, IfSome};
ghost use Rattle.std.proofs.lemmas.List.Edits.{sets};
ghost use Rattle.paper.specs.Answer.{told, Fills};
ghost use Rattle.text.specs.Put.{Puts};
ghost use Rattle.journal.specs.Line.{version_text};
ghost use Rattle.journal.specs.Journal.{head_text};
ghost use Rattle.hourly.specs.Tally.{summary_of};
ghost use Rattle.hourly.specs.Says.{says_judged};
ghost use Rattle.conversion.specs.Conversion.{read_as, handed};
ghost use Rattle.conversion.specs.Bytes.{tabs_after, piece_of, bytes_to, bytes_of, is_other, line_after, other_from, back_from};
ghost use Rattle.conversion.specs.Says.{says_converted, says_piece, says_other};
ghost use Rattle.conversion.specs.declared.ConvertError.TheVariants.{Refused};
ghost use Rattle.conversion.specs.Promises.{Renews, Restores};

use hourly::{Products, Summary};
use journal::{Form, Refusal};

// Why a journal is not converted: it is refused, it has a dose whose product has no place in the old form (with its line), or the buffer is too short.
#[derive(Clone, Copy, Debug, PartialEq, Eq)]
pub enum ConvertError {
    Refused(Refusal),
    R18(usize),
    R8,
}

impl From<Refusal> for ConvertError {
    ghost from_gives = { λ refusal e. e ≡ Refused refusal };

    fn from(refusal: Refusal) -> ConvertError {
        ConvertError::Refused(refusal)
    }
}

// What becomes of a byte in the other form: it is left out, it stays, or the field 0 comes before it, which ends a dose.
#[derive(Clone, Copy)]
enum Piece {
    Gone,
    Kept,
    Ended,
}

const ZERO: u8 = 48;

// A D line of the old form has so many fields behind its letter, with a tab before each.
const OLD_FIELDS: usize = 4;

// The tabs of a line after one byte more.
fn tabs_after(tabs: usize, b: u8) -> usize
    requires { tabs ≤ 65536 }
    ensures { result ≡ tabs_after tabs b }
{
    if b == text::LF {
        return 0;
    }
    if b == text::TAB {
        return tabs + 1;
    }
    tabs
}

// Whether a byte ends an old D line.
fn ends_dose(tabs: usize, b: u8) -> bool
    ensures { result ≡ (eqb b 10 && eqb tabs 4) }
{
    b == text::LF && tabs == OLD_FIELDS
}

// What becomes of a byte in a form.
fn piece_of(to: Form, tabs: usize, b: u8) -> Piece
    requires { tabs ≤ 65536 }
    ensures { says_piece result b ≡ piece_of to tabs b }
{
    match to {
        Form::Old => {
            if tabs_after(tabs, b) <= OLD_FIELDS {
                return Piece::Kept;
            }
            Piece::Gone
        }
        Form::New => {
            if ends_dose(tabs, b) {
                return Piece::Ended;
            }
            Piece::Kept
        }
    }
}

// How many bytes a byte becomes in a form.
fn piece_len(to: Form, tabs: usize, b: u8) -> usize
    requires { tabs ≤ 65536 }
    ensures { result ≡ length (piece_of to tabs b) }
{
    match piece_of(to, tabs, b) {
        Piece::Gone => 0,
        Piece::Kept => 1,
        Piece::Ended => 3,
    }
}

// How many bytes some lines become in a form.
fn lines_len(to: Form, lines: &[u8]) -> usize
    requires { length lines.now ≤ 65536 }
    ensures { result ≡ length (bytes_to to 0 lines.now) }
{
    let mut n = 0;
    let mut tabs = 0;
    for &b in lines {
        n += piece_len(to, tabs, b);
        tabs = tabs_after(tabs, b);
    }
    n
}

// What a byte becomes in a form, put at a place that has room for it.
fn put_piece(out: &mut [u8], at: usize, to: Form, tabs: usize, b: u8) -> usize
    requires few { tabs ≤ 65536 }
    requires room { at + length (piece_of to tabs b) ≤ length out.old }
    ensures { Puts out.old at (piece_of to tabs b) out.new result }
{
    match piece_of(to, tabs, b) {
        Piece::Gone => at,
        Piece::Kept => text::put_byte(out, at, b),
        Piece::Ended => {
            let after_tab = text::put_byte(out, at, text::TAB);
            let after_zero = text::put_byte(out, after_tab, ZERO);
            text::put_byte(out, after_zero, text::LF)
        }
    }
}

// Some lines stored in a form, at a place that has room for them.
fn put_lines(to: Form, lines: &[u8], out: &mut [u8], at: usize)
    requires short { length lines.now ≤ 65536 }
    requires room { at + length (bytes_to to 0 lines.now) ≤ length out.old }
    ensures { out.new ≡ sets out.old at (bytes_to to 0 lines.now) }
{
    let mut tabs = 0;
    let mut p = at;
    for &b in lines {
        p = put_piece(out, p, to, tabs, b);
        tabs = tabs_after(tabs, b);
    }
}

// The V line at the start of a buffer that has room for it.
fn put_version(out: &mut [u8]) -> usize
    requires { length version_text ≤ length out.old }
    ensures { Puts out.old 0 version_text out.new result }
{
    match entry::write_version(out) {
        Ok(len) => len,
        Err(_) => 0,
    }
}

// What a journal of a form begins with, at the start of a buffer that has room for it.
fn put_head(to: Form, out: &mut [u8]) -> usize
    requires { length (head_text to) ≤ length out.old }
    ensures { Puts out.old 0 (head_text to) out.new result }
{
    match to {
        Form::Old => 0,
        Form::New => put_version(out),
    }
}

// How many bytes a journal of a form begins with.
fn head_len(to: Form) -> usize
    ensures { result ≡ length (head_text to) }
{
    match to {
        Form::Old => 0,
        Form::New => journal::VERSION_LEN,
    }
}

// A journal in a form from the buffer's start: R13 where it would be too long, then R8.
fn hand_over(to: Form, bytes: &[u8], out: &mut [u8]) -> Result<usize, ConvertError>
    requires { length bytes.now ≤ 65536 }
    ensures { Fills (says_converted result) (handed (length out.old) (bytes_of to bytes.now)) out.old out.new }
{
    let head = journal::head_of(bytes);
    let lines = &bytes[head.bytes..];
    let size = head_len(to) + lines_len(to, lines);
    if journal::ROOM < size {
        return Err(ConvertError::Refused(Refusal::R13));
    }
    if out.len() < size {
        return Err(ConvertError::R8);
    }
    let at = put_head(to, out);
    put_lines(to, lines, out, at);
    Ok(size)
}

// A journal that has to be of this form: R13, then R10 at line 1 where it is of the other, then line by line R10, R11, R12.
fn judged_as(form: Form, bytes: &[u8]) -> Result<Summary, Refusal>
    ensures { says_judged result ≡ told summary_of (read_as form bytes.now) }
{
    if bytes.len() > journal::ROOM {
        return Err(Refusal::R13);
    }
    let head = journal::head_of(bytes);
    if head.form != form {
        return Err(Refusal::R10(1));
    }
    let counted = hourly::tallies(bytes, Products::All)?;
    Ok(counted.found)
}

// Whether a byte is a digit of a product other than 0.
fn is_other(tabs: usize, b: u8) -> bool
    ensures { result ≡ is_other tabs b }
{
    tabs == OLD_FIELDS + 1 && b != text::LF && b != ZERO
}

// The number of a line after one byte more.
fn line_after(line: usize, b: u8) -> usize
    requires { line ≤ 65538 }
    ensures { result ≡ line_after line b }
{
    if b == text::LF {
        return line + 1;
    }
    line
}

// The number of the first line with a product other than 0; the first of these lines is line 2.
fn first_other(lines: &[u8]) -> Option<usize>
    requires { length lines.now ≤ 65536 }
    ensures line { says_other result ≡ other_from 2 0 lines.now }
    ensures some { IfSome result (λ n. 2 ≤ n) }
{
    let mut line = 2;
    let mut tabs = 0;
    for &b in lines {
        if is_other(tabs, b) {
            return Some(line);
        }
        line = line_after(line, b);
        tabs = tabs_after(tabs, b);
    }
    None
}

// A sound journal of the new form in the old one: R18, then R13, then R8.
fn hand_back(bytes: &[u8], out: &mut [u8]) -> Result<usize, ConvertError>
    requires short { length bytes.now ≤ 65536 }
    requires headed { 4 ≤ length bytes.now }
    ensures { Fills (says_converted result) (back_from bytes.now (length out.old)) out.old out.new }
{
    if let Some(line) = first_other(&bytes[journal::VERSION_LEN..]) {
        return Err(ConvertError::R18(line));
    }
    hand_over(Form::Old, bytes, out)
}

// An old journal in the new form, with product 0, from the buffer's start, or a refusal that leaves the buffer as it was.
pub fn renew(bytes: &[u8], out: &mut [u8]) -> Result<usize, ConvertError>
    ensures { Renews bytes.now result out.old out.new }
{
    judged_as(Form::Old, bytes)?;
    hand_over(Form::New, bytes, out)
}

// A new journal in the old form from the buffer's start, or a refusal that leaves the buffer as it was.
pub fn restore(bytes: &[u8], out: &mut [u8]) -> Result<usize, ConvertError>
    ensures { Restores bytes.now result out.old out.new }
{
    judged_as(Form::New, bytes)?;
    hand_back(bytes, out)
}
