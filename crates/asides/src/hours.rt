// The calls on the hours of a journal.
ghost use Rattle.hourly.specs.Exact.{Numbers};

use hourly::{Figures, Hour, Products};
use journal::Refusal;
use report::PrintError;

// M and the bits of the figures.
fn figures(out: &mut [u8], f: Figures) -> usize
    requires { Numbers f.sum f.largest f.mean }
{
    let start = text::put_byte(out, 0, b'M');
    let sum = pieces::bits(out, start, f64::to_bits(f.sum));
    let largest = pieces::bits(out, sum, f64::to_bits(f.largest));
    let mean = pieces::bits(out, largest, f64::to_bits(f.mean));
    pieces::end(out, mean)
}

// The number of a refusal and its line.
fn refused(refusal: Refusal) -> [u64; 2] {
    let named = journal::number_and_line(refusal);
    [named.number, named.line]
}

// u: one hour of a journal over all products, or the journal's refusal.
pub(crate) fn ask(out: &mut [u8], bytes: &[u8], hour: u32) -> usize {
    match hourly::hour_of(bytes, Products::All, hour) {
        Ok(found) => match found {
            Hour::Measured(f) => figures(out, f),
            Hour::Idle => pieces::line(out, 0, b'I', &[]),
            Hour::Missing => pieces::line(out, 0, b'X', &[]),
        },
        Err(refusal) => pieces::line(out, 0, b'R', &refused(refusal)),
    }
}

// j: the text of a journal's hours over all products made in a buffer, which is shown whole.
pub(crate) fn print(out: &mut [u8], bytes: &[u8], buffer: &mut [u8]) -> usize {
    match report::print(bytes, Products::All, buffer) {
        Ok(len) => pieces::shown(out, 0, b'P', &[len as u64], buffer),
        Err(PrintError::Refused(refusal)) => {
            pieces::shown(out, 0, b'R', &refused(refusal), buffer)
        }
        Err(PrintError::R8) => pieces::shown(out, 0, b'R', &[8], buffer),
    }
}
