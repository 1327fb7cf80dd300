// The channels: inputs and outputs as bits, start, the runs of mismatches and F14.
#![tactic(auto)]

ghost use Rattle.std.specs.Prelude.{◌≡◌, ◌+◌, ◌/◌, ◌%◌, ◌<◌, ltb, eqb};
ghost use Rattle.std.specs.Bool.{xor};
ghost use Rattle.laws.specs.Pick.{pick};
ghost use Rattle.channels.specs.Channels.{worth, expected};
ghost use Rattle.channels.specs.Says.{Starts, Shows, Moves, Watches};

use dosing::Gates;
use settings::Settings;

// The runs of mismatches of channels 1 to 3.
#[derive(Clone, Copy, Debug, Default, PartialEq, Eq)]
pub struct Runs {
    pub one: u32,
    pub two: u32,
    pub three: u32,
}

impl Runs {
    // A run of so many mismatches is F14, and it grows no further.
    pub const MISMATCHES: u32 = 64;
}

// Whether the bit of this worth is on.
// This and `bit_of` are those of `field` too: no crate with code lies below both, and one made for two lines would be no plainer.
fn has_bit(byte: u8, worth: u8) -> bool
    requires { 0 < worth }
    ensures { result ≡ eqb (byte / worth % 2) 1 }
{
    byte / worth % 2 == 1
}

// A bit's worth, n, where its output is on.
fn bit_of(on: bool, n: u8) -> u8
    ensures { result ≡ worth on n }
{
    if on { n } else { 0 }
}

// Output i is bit i-1.
pub fn outputs_of(g: Gates, four: bool) -> u8
    ensures { Shows g four result }
{
    let one = bit_of(g.one, 1);
    let two = bit_of(g.two, 2);
    let three = bit_of(g.three, 4);
    let alarm = bit_of(four, 8);
    one + two + three + alarm
}

// Input 4 or the link start; in AL3 the link start alone.
pub fn start_of(set: Settings, link: bool, inputs: u8) -> bool
    ensures { Starts set link inputs result }
{
    link | (!(3 <= set.algorithm) & has_bit(inputs, 8))
}

// Whether a channel's input is not the expected one: the output at level 1, its opposite at level 0.
fn mismatch(level: u32, output: bool, on: bool) -> bool
    ensures { result ≡ xor on (expected level output) }
{
    on != ((level == 1) == output)
}

// A mismatch adds 1 to the channel's run, a match puts it to 0.
fn run_after(wrong: bool, run: u32) -> u32
    ensures { result ≡ pick wrong (pick (ltb run 64) (run + 1) 64) 0 }
{
    if !wrong {
        0
    } else if run < Runs::MISMATCHES {
        run + 1
    } else {
        Runs::MISMATCHES
    }
}

// The runs of channels 1 to 3, which move in AL1 to AL3; on nearly every tick all three match.
pub fn runs_after(set: Settings, g: Gates, inputs: u8, runs: Runs) -> Runs
    ensures { Moves set g inputs runs result }
{
    if set.algorithm == 0 {
        return runs;
    }
    let one = mismatch(set.in1, g.one, has_bit(inputs, 1));
    let two = mismatch(set.in2, g.two, has_bit(inputs, 2));
    let three = mismatch(set.in3, g.three, has_bit(inputs, 4));
    if !(one | two | three) {
        return Runs::default();
    }
    Runs {
        one: run_after(one, runs.one),
        two: run_after(two, runs.two),
        three: run_after(three, runs.three),
    }
}

// The lowest channel whose run has reached its limit, which is F14; none if no run has.
pub fn reached(runs: Runs) -> Option<u8>
    ensures { Watches runs result }
{
    if Runs::MISMATCHES <= runs.one {
        return Some(1);
    }
    if Runs::MISMATCHES <= runs.two {
        return Some(2);
    }
    if Runs::MISMATCHES <= runs.three {
        return Some(3);
    }
    None
}
