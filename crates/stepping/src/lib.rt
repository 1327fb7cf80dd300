// Steps 4 and 5 and steps 7 and 8 of a tick, by their parts; no controller.
#![tactic(auto)]

ghost use Rattle.std.specs.Prelude.{◌≡◌};
ghost use Rattle.stepping.specs.Stepping.{unstarted_of};
ghost use Rattle.stepping.specs.Says.{Rests, Samples, Steps};

use counters::Counters;
use dosing::{Dose, Gates, Phase, Units};
use settings::Settings;

// What steps 4 and 5 make of the samples held: F and S.
#[derive(Clone, Copy, Debug, PartialEq, Eq)]
pub struct Sampled {
    pub f: Units,
    pub s: u32,
}

// What steps 7 and 8 make of a tick.
#[derive(Clone, Copy, Debug, PartialEq, Eq)]
pub struct Stepped {
    pub phase: Phase,
    pub z: Units,
    pub s: u32,
    pub gates: Gates,
    pub alarm: bool,
    // The outputs, 1 to 4.
    pub outputs: u8,
    pub dose: Option<Dose>,
    pub counters: Counters,
    // The tick began and ended in Ready with start off.
    pub unstarted: bool,
}

// Steps 4 and 5 once the sample is kept: F of the samples lent, by the gates before the tick, and S, which is 0 on the first sample.
pub fn sample(
    set: Settings,
    gates: Gates,
    first: bool,
    samples: &[i32],
    held: usize,
    f: Units,
    s: u32,
) -> Sampled
    ensures { Samples set gates first samples.now held f s result }
{
    let n = scale::filter_of(set, gates);
    let mean = scale::mean_lent(samples, held, n);
    let calm = scale::calm_by_mean(first, mean, f, s);
    Sampled { f: mean, s: calm }
}

// The phase is Ready.
#[tactic(auto, using(crate::proofs::Laws::not_ready), unfolding(crate::specs::Stepping::at_ready))]
pub fn at_ready(phase: Phase) -> bool
    ensures { Rests phase result }
{
    matches!(phase, Phase::Ready)
}

// The tick began and ended in Ready with start off.
fn is_unstarted(began: Phase, start: bool, ended: Phase) -> bool
    ensures { result ≡ unstarted_of began start ended }
{
    at_ready(began) & !start & at_ready(ended)
}

// Step 7, the phase rule, and step 8: output 4 and S, and the counters.
pub fn step(
    set: Settings,
    began: Phase,
    f: Units,
    z: Units,
    s: u32,
    gates: Gates,
    n: Counters,
    start: bool,
) -> Stepped
    ensures { Steps set began f z s gates n start result }
{
    let moved = dosing::step(set, began, scale::see(set, f, z, s, start));
    let alarm = scale::over_capacity(set, f, moved.z);
    Stepped {
        phase: moved.phase,
        z: moved.z,
        s: scale::calm_by_gates(gates, moved.gates, s),
        gates: moved.gates,
        alarm,
        outputs: channels::outputs_of(moved.gates, alarm),
        dose: moved.dose,
        counters: counters::counters_after(n, moved.dose),
        unstarted: is_unstarted(began, start, moved.phase),
    }
}
