// One read of standard input behind what is left in a buffer.
#![tactic(auto)]

ghost use Rattle.std.specs.Prelude.{◌≤◌, length};
ghost use Rattle.refill.specs.Refills.{Keeps, Refills};

use lines::Intake;
use std::io::Read;
use std::rt::Stdin;

// Reads once behind the first `held` bytes, and answers how many came: none where the read fails.
fn read_behind(mut stdin: Stdin, buffer: &mut [u8], held: usize) -> usize
    requires { held ≤ length buffer.old }
    ensures { Keeps held buffer.old buffer.new result }
{
    stdin.read(&mut buffer[held..]).unwrap_or(0)
}

// Brings what is pending to the buffer's start and reads once behind it; answers what is pending then: Ok where something came, Err where nothing did, as at the end of the input.
pub fn refill(stdin: Stdin, intake: Intake, buffer: &mut [u8]) -> Result<Intake, Intake>
    ensures { Refills intake buffer.old buffer.new result }
{
    let held = lines::carry(buffer, intake.at, intake.have);
    let n = read_behind(stdin, buffer, held);
    let more = 0 < n;
    let intake = Intake {
        at: 0,
        have: held + n,
        long: intake.long,
    };
    if more { Ok(intake) } else { Err(intake) }
}
