// The whole lines of a block of input, each answered.
#![tactic(auto)]

ghost use Rattle.controller.specs.Sound.{Sound};
ghost use Rattle.blocks.specs.Carries.{Carries};

use controller::Controller;
use lines::Intake;

// What is carried on behind the whole lines of a block.
#[derive(Clone, Copy)]
pub struct Carried {
    pub controller: Controller,
    pub intake: Intake,
}

// Answers the whole lines of what is held; the answers are written out by way of `out`.
pub fn answer(mut c: Controller, mut held: Intake, input: &[u8], out: &mut [u8]) -> Carried
    requires { Sound c }
    ensures { Carries c held input.now result }
{
    let mut bytes = io::buffer();
    let mut spare = io::buffer();
    let mut len: usize = 0;
    loop {
        let run = runs::answer(c, held, input, &mut bytes, out, len);
        let Some(call) = run.stop else {
            runs::write_out(out, run.len);
            return Carried {
                controller: run.controller,
                intake: run.intake,
            };
        };
        let answered = answers::answer(run.controller, call, &bytes, &mut spare, out, run.len);
        c = answered.controller;
        len = answered.len;
        held = run.intake;
    }
}
