// Why an output is as it is.
use reasons::{Name, Reason, ReasonError};

// The word of a reason.
fn word(reason: Reason) -> &'static [u8] {
    match reason {
        Reason::Open => b"open",
        Reason::Fault { .. } => b"fault",
        Reason::Unused => b"unused",
        Reason::NoStart => b"nostart",
        Reason::Settling { .. } => b"settling",
        Reason::Lead { .. } => b"lead",
        Reason::Phase(_) => b"phase",
        Reason::Overload => b"overload",
        Reason::NoAlarm => b"noalarm",
    }
}

// The name of a phase.
fn phase(name: Name) -> &'static [u8] {
    match name {
        Name::Ready => b"Ready",
        Name::Fill => b"Fill",
        Name::Settle => b"Settle",
        Name::Discharge => b"Discharge",
        Name::Load => b"Load",
        Name::Calm => b"Calm",
        Name::Dose => b"Dose",
    }
}

// The values of a reason, or the phase's name.
fn put_values(out: &mut [u8], at: usize, reason: Reason) -> usize {
    match reason {
        Reason::Fault { number, channel } => {
            pieces::numbers(out, at, &[u64::from(number), u64::from(channel)])
        }
        Reason::Settling { gone, allowed } => pieces::numbers(out, at, &[gone, allowed]),
        Reason::Lead { w, limit } => {
            let after = pieces::signed(out, at, w.v);
            pieces::numbers(out, after, &[u64::from(limit)])
        }
        Reason::Phase(name) => pieces::word(out, at, phase(name)),
        _ => at,
    }
}

// Y, the reason's word and its values; or R 19.
pub fn line(out: &mut [u8], why: Result<Reason, ReasonError>) -> usize {
    match why {
        Ok(reason) => {
            let start = text::put_byte(out, 0, b'Y');
            let after = pieces::word(out, start, word(reason));
            let end = put_values(out, after, reason);
            pieces::end(out, end)
        }
        Err(ReasonError::R19) => pieces::line(out, 0, b'R', &[19]),
    }
}
