// One tick, steps 1 to 8.
ghost use Rattle.std.specs.Prelude.{◌≡◌, false};
ghost use Rattle.counters.specs.Counters.{records_of};
ghost use Rattle.controller.specs.State.{with_inputs, with_unstarted};
ghost use Rattle.controller.specs.Tick.{faulted, step7, step3};
ghost use Rattle.controller.specs.Sound.{Sound};
ghost use Rattle.controller.specs.Says.{Ticks, told_by};
ghost use Rattle.controller.specs.Parts.{Gives, Small, Takes};

use crate::{Controller, Fault, Outputs, TickError, Ticked};
use counters::Counters;
use dosing::{Dose, Gates, Phase, Units};

impl Controller {
    // Inputs 1 to 4, all on.
    pub const INPUTS_MOST: u8 = 15;

    // One tick: a sample and the inputs.
    pub fn tick(self, sample: i32, inputs: u8) -> Ticked
        requires { Sound self }
        ensures { Ticks self sample inputs result }
    {
        if Controller::INPUTS_MOST < inputs {
            return Ticked {
                next: self,
                answer: Err(TickError::R1),
            };
        }
        if let Some(why) = self.condition {
            return Ticked {
                next: self,
                answer: Err(TickError::Fault(why)),
            };
        }
        let x = Units { v: sample };
        // Step 3: the inputs are kept, a sample outside -900,000..900,000 is not.
        if scale::is_outside(x) {
            return faulted(Fault::F21, kept(self, inputs));
        }
        steps4to8(self, x, inputs)
    }
}

// A fault ends the tick, closes outputs 1 to 3, turns output 4 on and abandons the cycle.
fn faulted(why: Fault, c: Controller) -> Ticked
    ensures { Gives (faulted why c) result }
{
    let next = Controller {
        phase: Phase::Ready,
        gates: Gates::default(),
        alarm: true,
        condition: Some(why),
        ..c
    };
    Ticked {
        next,
        answer: Err(TickError::Fault(why)),
    }
}

// Step 3: the inputs are kept, and this tick has not waited for start so far.
fn kept(mut c: Controller, inputs: u8) -> Controller
    ensures { result ≡ with_unstarted false (with_inputs inputs c) }
{
    c.inputs = inputs;
    c.unstarted = false;
    c
}

// The outputs, with the dose record if one completed.
fn answer_of(outputs: u8, product: u32, after: Counters, dose: Option<Dose>) -> Outputs
    ensures { told_by result ≡ record { outputs = outputs; doses = records_of product after dose } }
{
    let dose = dose.map(|dose| counters::record_of(product, after, dose.amount, dose.settled));
    Outputs { outputs, dose }
}

// Step 7, the phase rule, and step 8: output 4 and S, the counters, and the answer.
fn steps7and8(c: Controller, start: bool) -> Ticked
    requires { Small c.f c.z }
    ensures { Gives (step7 c start) result }
{
    let to = stepping::step(c.set, c.phase, c.f, c.z, c.s, c.gates, c.counters, start);
    let answer = Ok(answer_of(to.outputs, c.set.product, to.counters, to.dose));
    let next = Controller {
        phase: to.phase,
        z: to.z,
        s: to.s,
        gates: to.gates,
        alarm: to.alarm,
        counters: to.counters,
        unstarted: to.unstarted,
        ..c
    };
    Ticked { next, answer }
}

// From step 4 on: the inputs and the sample are kept; F, start and S; the lowest channel whose run reached its limit is F14, else the phase rule.
fn steps4to8(c: Controller, x: Units, inputs: u8) -> Ticked
    requires { Takes c x }
    ensures { Gives (step3 c x.v inputs) result }
{
    let mut c = kept(c, inputs);
    let v = x.v;
    let window = c.window.push(v);
    let held = window.held;
    let to = stepping::sample(
        c.set,
        c.gates,
        c.window.held == 0,
        &window.samples,
        held,
        c.f,
        c.s,
    );
    let start = channels::start_of(c.set, c.link, inputs);
    let runs = channels::runs_after(c.set, c.gates, inputs, c.runs);
    c.window = window;
    c.f = to.f;
    c.s = to.s;
    c.runs = runs;
    match channels::reached(runs) {
        Some(channel) => faulted(Fault::F14(channel), c),
        None => steps7and8(c, start),
    }
}
