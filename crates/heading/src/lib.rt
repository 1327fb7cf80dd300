// The first line of standard input, of any length, and the journal behind it.
#![tactic(auto)]

ghost use Rattle.heading.specs.Heading.{Turns, ReadsHeading, Behind};

use lines::Intake;
use std::rt::Stdin;

// Standard input.
const STDIN_FILENO: i32 = 0;

// More turns than any input has.
const TURNS: u64 = 1 << 63;

// The first line, from one place of the buffer to another, its LF left out; that more has to be read; or that there is none.
// Three cases, of which two are no error: no Option or Result says them more plainly.
#[derive(Clone, Copy)]
pub enum Found {
    Line { from: usize, to: usize },
    More,
    Nothing,
}

// What is known of the first line, and what is held behind it.
#[derive(Clone, Copy)]
pub struct Headed {
    pub found: Found,
    pub intake: Intake,
}

// Looks for the first line in what is held; where it is not there in full, reads on.
fn turn(stdin: Stdin, intake: Intake, buffer: &mut [u8]) -> Headed
    ensures { Turns intake buffer.old buffer.new result }
{
    let taken = intake.next_line(buffer);
    if let Some((from, to)) = taken.next {
        return Headed {
            found: Found::Line { from, to },
            intake: taken.intake,
        };
    }
    match refill::refill(stdin, taken.intake, buffer) {
        Ok(intake) => Headed {
            found: Found::More,
            intake,
        },
        Err(_) => Headed {
            found: Found::Nothing,
            intake: Intake::start(),
        },
    }
}

// Reads to the end of the first line; the turns are so many that no input uses them up.
pub fn read_heading(stdin: Stdin, buffer: &mut [u8]) -> Headed
    ensures { ReadsHeading buffer.new result }
{
    let mut headed = turn(stdin, Intake::start(), buffer);
    for _ in 0..TURNS {
        let Found::More = headed.found else {
            return headed;
        };
        headed = turn(stdin, headed.intake, buffer);
    }
    headed
}

// Brings what is held of the journal to the buffer's start and reads on behind it; answers how many bytes stand there. Where the input ended before a first line there is no journal, and nothing is read again.
pub fn read_journal(buffer: &mut [u8], headed: Headed) -> usize
    ensures { Behind headed headed.found buffer.old buffer.new result }
{
    if let Found::Nothing = headed.found {
        return 0;
    }
    let intake = headed.intake;
    let held = lines::carry(buffer, intake.at, intake.have);
    held + io::read_full(STDIN_FILENO, &mut buffer[held..])
}
