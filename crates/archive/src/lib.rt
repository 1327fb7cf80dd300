// What the programs renew and restore print: the journal in the other form, or the line of a refusal.
#![tactic(auto)]

ghost use Rattle.archive.specs.Promises.{Shows, PrintsRenewed, PrintsRestored};

use conversion::ConvertError;
use journal::ROOM;
use report::Printout;

// What is printed for an answer: the journal that stands in the buffer, or the line of the refusal.
fn shown(converted: Result<usize, ConvertError>, bytes: [u8; ROOM]) -> Printout<ROOM>
    ensures { Shows converted bytes result }
{
    match converted {
        Ok(len) => Printout { bytes, len },
        Err(ConvertError::Refused(refusal)) => report::refusal_report(refusal),
        Err(ConvertError::R18(line)) => report::refusal_line(18, line as u64),
        Err(ConvertError::R8) => report::refusal_line(8, 0),
    }
}

// What renew prints for an old journal, which the first n of the bytes read are.
pub fn renewed(bytes: &[u8; journal::READ], n: usize) -> Printout<ROOM>
    ensures { PrintsRenewed bytes.now n result }
{
    let mut out = [0u8; ROOM];
    let size = n.min(journal::READ);
    let converted = conversion::renew(&bytes[..size], &mut out);
    shown(converted, out)
}

// What restore prints for a new journal, which the first n of the bytes read are.
// Beside renewed, since only the call differs: a function handed in would state that call's contract again.
pub fn restored(bytes: &[u8; journal::READ], n: usize) -> Printout<ROOM>
    ensures { PrintsRestored bytes.now n result }
{
    let mut out = [0u8; ROOM];
    let size = n.min(journal::READ);
    let converted = conversion::restore(&bytes[..size], &mut out);
    shown(converted, out)
}
