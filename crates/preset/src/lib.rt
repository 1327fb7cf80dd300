// Lines of a script bring a box where it shall be, up to the first empty line.
#![tactic(auto)]

ghost use Rattle.std.specs.Prelude.{◌≤◌, length};
ghost use Rattle.controller.specs.Sound.{Sound};
ghost use Rattle.calls.specs.Call.{call_of};
ghost use Rattle.acts.specs.Makes.{Made};
ghost use Rattle.acts.specs.Script.{Brings};

use calls::Call;
use controller::Controller;
use lines::Intake;

// The box behind the lines of a block, what is pending, and whether the empty line has come.
#[derive(Clone, Copy)]
pub struct Brought {
    pub controller: Controller,
    pub intake: Intake,
    pub open: bool,
}

// What a line makes of the box.
fn made(c: Controller, line: &[u8], bytes: &mut [u8]) -> Controller
    requires sound { Sound c }
    requires line { length line.now ≤ 4095 }
    requires room { 2048 ≤ length bytes.old }
    ensures { Made c (call_of line.now) result }
{
    let call = calls::read(line, bytes);
    if let Call::Tick(sample, inputs) = call {
        return c.tick(sample, inputs).next;
    }
    acts::other(c, call, bytes).next
}

// Makes the calls of the whole lines of what is held, up to the empty one.
pub fn bring(mut c: Controller, mut held: Intake, input: &[u8]) -> Brought
    requires { Sound c }
    ensures { Brings c held input.now result.controller result.intake }
{
    let mut bytes = io::buffer();
    loop {
        let long = held.long;
        let start = held.at;
        let taken = held.next_line(input);
        held = taken.intake;
        let Some((from, to)) = taken.next else {
            return Brought {
                controller: c,
                intake: held,
                open: false,
            };
        };
        c = made(c, &input[from..to], &mut bytes);
        if (to == start) & !long {
            return Brought {
                controller: c,
                intake: held,
                open: true,
            };
        }
    }
}
