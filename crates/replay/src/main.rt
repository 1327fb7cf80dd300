// Every call of the box from standard input, one answer to a line.
#![tactic(auto)]

use controller::Controller;
use lines::Intake;

// Reads to the end of the input; no input uses up so many reads.
fn main(rt: HostRuntime) {
    let stdin = rt.stdin();
    let mut input = io::large_buffer();
    let mut output = io::large_buffer();
    let mut c = Controller::fresh();
    let mut held = Intake::start();
    for _ in 0..u64::MAX {
        let Ok(intake) = refill::refill(stdin, held, &mut input) else {
            return;
        };
        let carried = blocks::answer(c, intake, &input, &mut output);
        c = carried.controller;
        held = carried.intake;
    }
}
