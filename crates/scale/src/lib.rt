// What a tick and a request read off the samples: F, its filter, the calm run, stable, over capacity, what the phase rule sees and the weight.
#![tactic(auto)]

ghost use Rattle.std.specs.Prelude.{◌≡◌, ◌-ℤ◌};
ghost use Rattle.dosing.specs.Rules.{units};
ghost use Rattle.scale.specs.Scale.{as_window, net_of, six_digits, showable};
ghost use Rattle.scale.specs.Says.{Excludes, Lacks, MeansLent, Filters, CalmsByMean, CalmsByGates, Steadies, Overs, Sees, Weighs, says_weighed};

use dosing::{Gates, Seen, Units};
use field::{FieldError, Weight};
use settings::Settings;

// A difference of two weights, which an i32 need not hold.
#[derive(Clone, Copy, Debug, PartialEq, Eq)]
struct Wide {
    v: i64,
}

impl Wide {
    // A weight above C and this is over capacity.
    const OVER_CAPACITY: i64 = 9;
    // The greatest weight of six digits.
    const SIX_DIGITS: u64 = 999999;

    // The weight, where it has at most six digits.
    fn six_digits(self) -> Option<i32>
        ensures { result ≡ six_digits self.v }
    {
        if self.v.unsigned_abs() > Wide::SIX_DIGITS {
            return None;
        }
        Some(self.v as i32)
    }
}

// The greatest size of a sample that is not outside.
const SAMPLE_MOST: u32 = 900000;
// The cap of the calm run S.
const CALM_MOST: u32 = 4032;
// So many ticks of calm for each unit of p9 are stable.
const CALM_TICKS: u64 = 64;
// The greatest decimal point of a reply.
const POINT_MOST: u32 = 7;

// A sample outside -900,000..900,000.
pub fn is_outside(x: Units) -> bool
    ensures { Excludes x result }
{
    x.v.unsigned_abs() > SAMPLE_MOST
}

// No sample is held of those lent. `samples` and `held` stay two parameters: `Lacks` promises for any two, also for fewer samples than held.
pub fn holds_none(samples: &[i32], held: usize) -> bool
    ensures { Lacks samples.now held result }
{
    held == 0 || samples.is_empty()
}

// F of the samples lent, of which so many are held: the mean of the last n.
pub fn mean_lent(samples: &[i32], held: usize, n: u32) -> Units
    ensures { MeansLent samples.now held n result }
{
    Units {
        v: window::mean_of(samples, held, n as usize),
    }
}

// n: p7 if output 1 was open before the tick, else p8.
pub fn filter_of(set: Settings, g: Gates) -> u32
    ensures { Filters set g result }
{
    if g.one { set.p7 } else { set.p8 }
}

// S grows by 1 up to its cap if F equals the previous F, else becomes 0; at the first sample it is 0.
pub fn calm_by_mean(first: bool, f: Units, previous: Units, s: u32) -> u32
    ensures { CalmsByMean first f previous s result }
{
    if first || f != previous {
        0
    } else {
        s.min(CALM_MOST - 1) + 1
    }
}

// If an output 1 to 3 changed, S becomes 0.
pub fn calm_by_gates(old: Gates, new: Gates, s: u32) -> u32
    ensures { CalmsByGates old new s result }
{
    if old == new { s } else { 0 }
}

// S >= 64*p9
pub fn stable_of(set: Settings, s: u32) -> bool
    ensures { Steadies set s result }
{
    CALM_TICKS * (set.p9 as u64) <= s as u64
}

// w = F-Z
fn net(f: Units, z: Units) -> Wide
    ensures { result.v ≡ f.v -ℤ z.v }
{
    Wide {
        v: f.v as i64 - z.v as i64,
    }
}

// w > C+9
pub fn over_capacity(set: Settings, f: Units, z: Units) -> bool
    ensures { Overs set f z result }
{
    net(f, z).v > set.capacity as i64 + Wide::OVER_CAPACITY
}

// w = F-Z where it has at most six digits, else 0.
fn narrow_net(f: Units, z: Units) -> Units
    ensures { result ≡ units (net_of f.v z.v) }
{
    Units {
        v: net(f, z).six_digits().unwrap_or(0),
    }
}

// What the phase rule sees: F, Z, w, start and stable.
pub fn see(set: Settings, f: Units, z: Units, s: u32, start: bool) -> Seen
    ensures { Sees set f z s start result }
{
    Seen {
        f,
        z,
        w: narrow_net(f, z),
        start,
        stable: stable_of(set, s),
    }
}

// A weight with its flags and the decimal point; R16 beyond six digits or with a point above 7.
fn shown(w: Wide, stable: bool, over: bool, point: u32) -> Result<Weight, FieldError>
    ensures { says_weighed result ≡ showable (record { value = w.v; stable = stable; over = over; point = point }) }
{
    let value = w.six_digits().ok_or(FieldError::R16)?;
    if point > POINT_MOST {
        return Err(FieldError::R16);
    }
    Ok(Weight {
        value,
        stable,
        over,
        point: point as u8,
    })
}

// The weight and its flags, filtered by n samples; with no sample held all but the decimal point is 0.
pub fn weigh(
    set: Settings,
    samples: &[i32],
    held: usize,
    z: Units,
    s: u32,
    n: u32,
) -> Result<Weight, FieldError>
    ensures { Weighs set (as_window samples.now held) z s n result }
{
    if holds_none(samples, held) {
        return shown(Wide { v: 0 }, false, false, set.point);
    }
    let f = mean_lent(samples, held, n);
    shown(
        net(f, z),
        stable_of(set, s),
        over_capacity(set, f, z),
        set.point,
    )
}
