// From samples on standard input to a journal on standard output.
#![tactic(auto)]

ghost use Rattle.std.specs.Prelude.{IfSome};
ghost use Rattle.recorder.specs.Recording.{Carries};

use lines::Intake;
use recorder::Recorder;
use std::rt::Stdin;

// Standard output.
const STDOUT_FILENO: i32 = 1;

// What is carried on behind a turn.
#[derive(Clone, Copy)]
struct Turned {
    state: Recorder,
    intake: Intake,
}

// Notes what is held and prints what it adds; where no whole line is left, reads on. None at the end of the input.
fn turn(
    stdin: Stdin,
    state: Recorder,
    intake: Intake,
    input: &mut [u8],
    output: &mut [u8],
) -> Option<Turned>
    requires { Carries state }
    ensures { IfSome result (λ t. Carries t.state) }
{
    let fed = recorder::feed(state, intake, input, output);
    io::write_all(STDOUT_FILENO, &output[..fed.len]);
    if output.len() - fed.len < recorder::ENOUGH {
        return Some(Turned {
            state: fed.next,
            intake: fed.intake,
        });
    }
    let intake = refill::refill(stdin, fed.intake, input).ok()?;
    Some(Turned {
        state: fed.next,
        intake,
    })
}

// Reads to the end of the input; no input uses up so many turns.
fn main(rt: HostRuntime) {
    let stdin = rt.stdin();
    let mut input = io::large_buffer();
    let mut output = io::large_buffer();
    let mut state = Recorder::start();
    let mut intake = Intake::start();
    for _ in 0..u64::MAX {
        let Some(t) = turn(stdin, state, intake, &mut input, &mut output) else {
            return;
        };
        state = t.state;
        intake = t.intake;
    }
}
