// The clock of a recording: the hour and its ticks, and what each line that is heard adds to the journal.
#![tactic(auto)]

ghost use Rattle.std.specs.Prelude.{◌≡◌, true, [], ◌∷◌, ◌+◌, ◌≤◌, ◌<◌, length};
ghost use Rattle.journal.specs.Line.{text_of, in_range};
ghost use Rattle.journal.specs.declared.Form.TheVariants.{New};
ghost use Rattle.clock.specs.Clock.{greatest_hour, refuse, dose_in, one_more, counts, restarted_by, Runs};
ghost use Rattle.clock.specs.Marking.{Starts, size_of, Prints, Adds, fits_line, Writable, Writes, Opens, Marks, Passes};

use counters::Record;
use entry::WriteError;
use journal::{Form, Line};

// Before the first line, recording, or over after a refusal.
#[derive(Clone, Copy)]
pub enum Stage {
    First,
    Recording,
    Over,
}

// The hour, how many of its ticks have come, whether nothing of it was missed so far, and whether the box is known: no line that is no call has come since the last accepted restart.
#[derive(Clone, Copy)]
pub struct Clock {
    pub stage: Stage,
    pub hour: u32,
    pub ticks: u32,
    pub whole: bool,
    pub known: bool,
}

// What a line was: a counted tick, one that completed a dose, an accepted restart, no call, or any other call.
#[derive(Clone, Copy)]
pub enum Heard {
    Ticked,
    Dosed(Record),
    Restarted,
    Lost,
    Other,
}

// The next clock, and how many bytes a line added to the journal.
#[derive(Clone, Copy)]
pub struct Marked {
    pub next: Clock,
    pub len: usize,
}

// Hours 0..9,999,999.
const GREATEST_HOUR: u32 = 9999999;

// Ticks an hour.
const TICKS: u32 = 450000;

// So many bytes hold all that a line adds.
pub const ENOUGH: usize = 64;

// The one line of a refusal, R, 10 and the line, and nothing more.
fn refuse(k: Clock, line: u8, out: &mut [u8]) -> Marked
    requires { (line < 10) × (64 ≤ length out.old) }
    ensures { Writes (refuse line k) out.old out.new result }
{
    out[0] = b'R';
    out[1] = 9;
    out[2] = b'1';
    out[3] = b'0';
    out[4] = 9;
    out[5] = 48 + line;
    out[6] = 10;
    Marked {
        next: Clock {
            stage: Stage::Over,
            ..k
        },
        len: 7,
    }
}

// How many bytes a writer wrote.
fn size_of(wrote: Result<usize, WriteError>) -> usize
    ensures { result ≡ size_of wrote }
{
    wrote.unwrap_or(0)
}

// A line of the journal at a place that has room for it.
fn put_line(out: &mut [u8], at: usize, line: Line) -> usize
    requires { (in_range New line ≡ true) × (at + 31 ≤ length out.old) }
    ensures { Prints 31 out.old at (text_of New line) out.new result }
{
    at + size_of(entry::write(Form::New, line, &mut out[at..]))
}

// One tick more, behind `at` bytes: the last of an hour of a known box of which nothing was missed writes its H.
fn one_more(k: Clock, at: usize, out: &mut [u8]) -> Marked
    requires { Runs k × (k.hour ≤ greatest_hour) × (at + 31 ≤ length out.old) }
    ensures { Adds at (one_more k []) out.old out.new result }
{
    if k.ticks + 1 != TICKS {
        return Marked {
            next: Clock {
                ticks: k.ticks + 1,
                ..k
            },
            len: at,
        };
    }
    let next = Clock {
        hour: k.hour + 1,
        ticks: 0,
        whole: true,
        ..k
    };
    if !(k.whole & k.known) {
        return Marked { next, len: at };
    }
    let len = put_line(out, at, Line::On { hour: k.hour });
    Marked { next, len }
}

// A counted tick without a dose.
fn ticked(k: Clock, out: &mut [u8]) -> Marked
    requires { Runs k × (64 ≤ length out.old) }
    ensures { Writes (counts k []) out.old out.new result }
{
    if GREATEST_HOUR < k.hour {
        return refuse(k, 0, out);
    }
    one_more(k, 0, out)
}

// A counted tick that completed a dose: its D line comes first.
fn dosed(k: Clock, dose: Record, out: &mut [u8]) -> Marked
    requires { Runs k × Writable (Heard.Dosed dose) × (64 ≤ length out.old) }
    ensures { Writes (counts k (dose_in k.hour dose ∷ [])) out.old out.new result }
{
    if GREATEST_HOUR < k.hour {
        return refuse(k, 0, out);
    }
    let line = Line::Dose {
        hour: k.hour,
        count: dose.count,
        amount: dose.amount,
        settled: dose.settled,
        product: dose.product,
    };
    let at = put_line(out, 0, line);
    one_more(k, at, out)
}

// An accepted restart: the box is known again, and an hour that has begun is broken.
fn restarted(k: Clock) -> Clock
    ensures { result ≡ restarted_by k }
{
    let whole = k.whole & (k.ticks == 0);
    Clock {
        whole,
        known: true,
        ..k
    }
}

// Whether the record of a dose is within the ranges of a D line.
fn fits(heard: Heard) -> bool
    ensures { result ≡ fits_line heard }
{
    let Heard::Dosed(dose) = heard else {
        return true;
    };
    if dose.count > journal::COUNT_MOST {
        return false;
    }
    if dose.amount > journal::AMOUNT_MOST {
        return false;
    }
    if dose.settled > journal::SETTLED_MOST {
        return false;
    }
    dose.product <= journal::PRODUCT_MOST
}

impl Clock {
    // Before the first line.
    pub fn start() -> Clock
        ensures { Starts result }
    {
        Clock {
            stage: Stage::First,
            hour: 0,
            ticks: 0,
            whole: true,
            known: true,
        }
    }

    // What the first line adds, where 64 bytes are lent: the V line, with which the journal begins, if it is an hour alone.
    pub fn first(self, line: &[u8], out: &mut [u8]) -> Marked
        requires { Runs self }
        ensures { Opens self line.now out.old out.new result }
    {
        if out.len() < ENOUGH {
            return Marked { next: self, len: 0 };
        }
        let Some((hour, end)) = text::number_at(line, 0, GREATEST_HOUR) else {
            return refuse(self, 1, out);
        };
        if end < line.len() {
            return refuse(self, 1, out);
        }
        let len = size_of(entry::write_version(out));
        Marked {
            next: Clock {
                stage: Stage::Recording,
                hour,
                ..self
            },
            len,
        }
    }

    // What a line of a script adds, by what it was, where 64 bytes are lent and a dose can be written.
    pub fn heard(self, heard: Heard, out: &mut [u8]) -> Marked
        requires { Runs self }
        ensures { Marks self heard out.old out.new result }
    {
        if out.len() < ENOUGH {
            return Marked { next: self, len: 0 };
        }
        if !fits(heard) {
            return Marked { next: self, len: 0 };
        }
        match heard {
            Heard::Ticked => ticked(self, out),
            Heard::Dosed(dose) => dosed(self, dose, out),
            _ => Marked {
                next: self.passed(heard),
                len: 0,
            },
        }
    }

    // What a line that is no counted tick leaves: an accepted restart, no call, or any other call; it adds nothing.
    pub fn passed(self, heard: Heard) -> Clock
        ensures { Passes self heard result }
    {
        match heard {
            Heard::Restarted => restarted(self),
            Heard::Lost => Clock {
                whole: false,
                known: false,
                ..self
            },
            _ => self,
        }
    }
}
