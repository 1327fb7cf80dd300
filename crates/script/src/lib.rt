// The tick that stands next in a script, read where it stands.
#![tactic(auto)]

ghost use Rattle.script.specs.Sight.{ReadsTick, Sights};

use lines::Intake;

// A tick, and the place after the LF of its line.
#[derive(Clone, Copy)]
pub struct Tick {
    pub sample: i32,
    pub inputs: u8,
    pub next: usize,
}

// A line has at most so many bytes, its LF counted.
const LONGEST: usize = 4096;

// T sample inputs and LF, at a place.
fn tick_at(s: &[u8], at: usize) -> Option<Tick>
    ensures { ReadsTick s.now at result }
{
    if text::byte_at(s, at) != b'T' {
        return None;
    }
    let (sample, after) = operands::signed_at(s, at + 1)?;
    let (inputs, end) = text::field_at(s, after, 255)?;
    if text::byte_at(s, end) != text::LF {
        return None;
    }
    Some(Tick {
        sample,
        inputs: inputs as u8,
        next: end + 1,
    })
}

// The next whole line of what is held, where it is a tick; a line that is too long is none.
pub fn tick_next(intake: Intake, input: &[u8]) -> Option<Tick>
    ensures { Sights intake input.now result }
{
    let have = intake.have.min(input.len());
    let tick = tick_at(&input[..have], intake.at)?;
    if intake.long | (intake.at + LONGEST < tick.next) {
        return None;
    }
    Some(tick)
}
