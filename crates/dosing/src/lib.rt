// The phase rules of AL0 to AL3 as one step: no samples, no counters.
#![tactic(auto)]

ghost use Rattle.std.specs.Prelude.{◌≡◌, not, ◌&&◌, ◌+◌, eqb, pos, neg_ℤ, ◌-ℤ◌};
ghost use Rattle.std.specs.Int.Signed.{lt_z, le_z};
ghost use Rattle.dosing.specs.Rules.{gates, shut, to, complete, reached_wf, reached_wc, not_below_zero, zeroed, full, coarse_stage, fine_stage, ready_to_fill, fill, hold, settle_ends, discharge_opens, settle, amount_of, discharge, load, calm, dose_coarse, dose_fine, dose_settle, ready_to_dose, ready};
ghost use Rattle.dosing.specs.Calls.{TellsNear, Steps};

use settings::Settings;

// Settle and Calm last at most so many ticks for each 1 of p9.
pub const SETTLE_TICKS: u64 = 256;

// A weight in display units.
#[derive(Clone, Copy, Debug, PartialEq, Eq)]
pub struct Units {
    pub v: i32,
}

// Outputs 1 to 3.
#[derive(Clone, Copy, Debug, Default, PartialEq, Eq)]
pub struct Gates {
    pub one: bool,
    pub two: bool,
    pub three: bool,
}

// The phases of the paper, with the weights and the number of the tick that they keep.
#[derive(Clone, Copy, Debug, PartialEq, Eq)]
pub enum Phase {
    Ready,
    // Fill, coarse stage and fine stage (AL0, AL1).
    Coarse { w0: Units },
    Fine { w0: Units },
    // AL0 holds until start goes off.
    Hold,
    // AL1: Settle at tick number n, Discharge.
    Settle { w0: Units, n: u64 },
    Discharge { w0: Units, ws: Units, settled: bool },
    // AL2 and AL3: Load, Calm at tick number n, Dose, and its Settle at tick number n.
    Load,
    Calm { n: u64 },
    DoseCoarse { wh: Units },
    DoseFine { wh: Units },
    DoseSettle { wh: Units, n: u64 },
}

// What the phase rule sees of a tick: F, Z, w, whether start is on, whether it is stable.
#[derive(Clone, Copy, Debug, PartialEq, Eq)]
pub struct Seen {
    pub f: Units,
    pub z: Units,
    pub w: Units,
    pub start: bool,
    pub stable: bool,
}

// A completed dose: its amount, and whether its Settle ended stable.
#[derive(Clone, Copy, Debug, PartialEq, Eq)]
pub struct Dose {
    pub amount: u32,
    pub settled: bool,
}

// What the phase rule makes of a tick: the phase after it, Z, outputs 1 to 3, and the dose if one completed.
#[derive(Clone, Copy, Debug, PartialEq, Eq)]
pub struct Moved {
    pub phase: Phase,
    pub z: Units,
    pub gates: Gates,
    pub dose: Option<Dose>,
}

// A weight, made an i64.
fn widened(a: Units) -> i64
    ensures { result ≡ a.v }
{
    i64::from(a.v)
}

// The difference a-b, which an i32 need not hold.
fn difference(a: Units, b: Units) -> i64
    ensures { result ≡ a.v -ℤ b.v }
{
    i64::from(a.v) - i64::from(b.v)
}

// x < n
fn below(x: i64, n: u32) -> bool
    ensures { result ≡ lt_z x (pos n) }
{
    x < i64::from(n)
}

// -n < x
fn above_minus(x: i64, n: u32) -> bool
    ensures { result ≡ lt_z (neg_ℤ (pos n)) x }
{
    -i64::from(n) < x
}

// x >= n
fn at_least(x: i64, n: u32) -> bool
    ensures { result ≡ le_z (pos n) x }
{
    i64::from(n) <= x
}

// a-b; below 0 it is 0.
fn not_below_zero(a: Units, b: Units) -> u32
    ensures { result ≡ not_below_zero (a.v -ℤ b.v) }
{
    let d = difference(a, b);
    if d < 0 { 0 } else { d as u32 }
}

// x >= Wf; Wf is 0 where its lead is greater than D.
fn reached_wf(set: Settings, x: i64) -> bool
    ensures { result ≡ reached_wf set x }
{
    at_least(x, set.dose.saturating_sub(set.pf))
}

// x >= Wc; Wc is 0 where its lead is greater than D.
fn reached_wc(set: Settings, x: i64) -> bool
    ensures { result ≡ reached_wc set x }
{
    at_least(x, set.dose.saturating_sub(set.pc))
}

// -M < F < M
pub fn near_zero(set: Settings, f: Units) -> bool
    ensures { TellsNear set f result }
{
    let x = widened(f);
    above_minus(x, set.level) & below(x, set.level)
}

// A phase, the outputs and a dose; Z is as it was.
fn outcome(phase: Phase, gates: Gates, dose: Option<Dose>, t: Seen) -> Moved
    ensures { result ≡ record { phase = phase; z = t.z; gates = gates; dose = dose } }
{
    Moved {
        phase,
        z: t.z,
        gates,
        dose,
    }
}

// The phase goes on or changes, with outputs 1, 2 and 3 open or shut, and no dose completes.
fn opens(phase: Phase, one: bool, two: bool, three: bool, t: Seen) -> Moved
    ensures { result ≡ to phase (gates one two three) t }
{
    outcome(phase, Gates { one, two, three }, None, t)
}

// The same with all gates shut.
fn rests(phase: Phase, t: Seen) -> Moved
    ensures { result ≡ to phase shut t }
{
    outcome(phase, Gates::default(), None, t)
}

// The dose is complete, Ready.
fn completes(amount: u32, settled: bool, t: Seen) -> Moved
    ensures { result ≡ complete amount settled t }
{
    let dose = Some(Dose { amount, settled });
    outcome(Phase::Ready, Gates::default(), dose, t)
}

// If -M < F < M then Z becomes F and w is 0.
fn zeroed(set: Settings, t: Seen) -> Seen
    ensures { result ≡ zeroed set t }
{
    if near_zero(set, t.f) {
        return Seen {
            z: t.f,
            w: Units { v: 0 },
            ..t
        };
    }
    t
}

// On reaching Wf AL1 enters Settle at tick number 0; AL0 holds.
fn full(set: Settings, w0: Units) -> Phase
    ensures { result ≡ full set w0 }
{
    if set.algorithm == 0 {
        return Phase::Hold;
    }
    Phase::Settle { w0, n: 0 }
}

// Coarse stage of Fill: 1 open, and 2 open exactly if o = 1; at Wc 2 open, fine stage; at Wf both closed.
fn coarse_stage(set: Settings, w0: Units, t: Seen) -> Moved
    ensures { result ≡ coarse_stage set w0 t }
{
    let x = widened(t.w);
    if reached_wf(set, x) {
        return rests(full(set, w0), t);
    }
    if reached_wc(set, x) {
        return opens(Phase::Fine { w0 }, false, true, false, t);
    }
    opens(Phase::Coarse { w0 }, true, set.o == 1, false, t)
}

// Fine stage of Fill: 2 open; at Wf closed.
fn fine_stage(set: Settings, w0: Units, t: Seen) -> Moved
    ensures { result ≡ fine_stage set w0 t }
{
    let x = widened(t.w);
    if reached_wf(set, x) {
        return rests(full(set, w0), t);
    }
    opens(Phase::Fine { w0 }, false, true, false, t)
}

// AL0 and AL1, Ready: on start the zero, w0 = w; go on at once as Fill, coarse stage.
fn ready_to_fill(set: Settings, t: Seen) -> Moved
    ensures { result ≡ ready_to_fill set t }
{
    if t.start {
        let begun = zeroed(set, t);
        return coarse_stage(set, begun.w, begun);
    }
    rests(Phase::Ready, t)
}

// AL0: start off during Fill ends it.
fn start_gone(set: Settings, t: Seen) -> bool
    ensures { result ≡ (eqb set.algorithm 0 && not t.start) }
{
    (set.algorithm == 0) & !t.start
}

// Fill, coarse stage: start off closes both, Ready; this is looked at before the weight.
fn fill_coarse(set: Settings, w0: Units, t: Seen) -> Moved
    ensures { result ≡ fill set t (coarse_stage set w0 t) }
{
    if start_gone(set, t) {
        return rests(Phase::Ready, t);
    }
    coarse_stage(set, w0, t)
}

// The same in the fine stage.
fn fill_fine(set: Settings, w0: Units, t: Seen) -> Moved
    ensures { result ≡ fill set t (fine_stage set w0 t) }
{
    if start_gone(set, t) {
        return rests(Phase::Ready, t);
    }
    fine_stage(set, w0, t)
}

// AL0: it holds with both closed until start goes off, then Ready.
fn hold(t: Seen) -> Moved
    ensures { result ≡ hold t }
{
    if t.start {
        return rests(Phase::Hold, t);
    }
    rests(Phase::Ready, t)
}

// Whether Settle or Calm, at tick number n before this tick, ends with it.
fn settle_ends(set: Settings, n: u64, stable: bool) -> bool
    ensures { result ≡ settle_ends set (n + 1) stable }
{
    let last = SETTLE_TICKS * u64::from(set.p9);
    if n < last {
        return stable | (last <= n + 1);
    }
    true
}

// wS = w, output 3 opens, Discharge.
fn discharge_opens(w0: Units, t: Seen) -> Moved
    ensures { result ≡ discharge_opens w0 t }
{
    let begun = Phase::Discharge {
        w0,
        ws: t.w,
        settled: t.stable,
    };
    let gates = Gates {
        one: false,
        two: false,
        three: true,
    };
    outcome(begun, gates, None, t)
}

// AL1: Settle, at tick number n before this tick.
fn settle(set: Settings, w0: Units, n: u64, t: Seen) -> Moved
    ensures { result ≡ settle set w0 (n + 1) t }
{
    if settle_ends(set, n, t.stable) {
        return discharge_opens(w0, t);
    }
    rests(Phase::Settle { w0, n: n + 1 }, t)
}

// wS-wE if p11 = 0, wS-w0 if 1; below 0 it is 0.
fn amount_of(set: Settings, w0: Units, ws: Units, we: Units) -> u32
    ensures { result ≡ amount_of set w0 ws we }
{
    if set.p11 == 0 {
        return not_below_zero(ws, we);
    }
    not_below_zero(ws, w0)
}

// AL1, Discharge: w < M closes 3, wE = w, the dose is complete, Ready.
fn discharge(set: Settings, w0: Units, ws: Units, settled: bool, t: Seen) -> Moved
    ensures { result ≡ discharge set w0 ws settled t }
{
    if below(widened(t.w), set.level) {
        return completes(amount_of(set, w0, ws, t.w), settled, t);
    }
    opens(Phase::Discharge { w0, ws, settled }, false, false, true, t)
}

// AL2 and AL3, Load: w >= M closes 3, Calm.
fn load(set: Settings, t: Seen) -> Moved
    ensures { result ≡ load set t }
{
    if at_least(widened(t.w), set.level) {
        return rests(Phase::Calm { n: 0 }, t);
    }
    opens(Phase::Load, false, false, true, t)
}

// Calm ends as Settle does, then Ready.
fn calm(set: Settings, n: u64, t: Seen) -> Moved
    ensures { result ≡ calm set (n + 1) t }
{
    if settle_ends(set, n, t.stable) {
        return rests(Phase::Ready, t);
    }
    rests(Phase::Calm { n: n + 1 }, t)
}

// Coarse stage of Dose: 1 and 2 open; at Wc 2 open, fine stage; at Wf both closed.
fn dose_coarse(set: Settings, wh: Units, t: Seen) -> Moved
    ensures { result ≡ dose_coarse set wh t }
{
    let x = difference(wh, t.w);
    if reached_wf(set, x) {
        return rests(Phase::DoseSettle { wh, n: 0 }, t);
    }
    if reached_wc(set, x) {
        return opens(Phase::DoseFine { wh }, false, true, false, t);
    }
    opens(Phase::DoseCoarse { wh }, true, true, false, t)
}

// Fine stage of Dose: 2 open; at Wf closed.
fn dose_fine(set: Settings, wh: Units, t: Seen) -> Moved
    ensures { result ≡ dose_fine set wh t }
{
    if reached_wf(set, difference(wh, t.w)) {
        return rests(Phase::DoseSettle { wh, n: 0 }, t);
    }
    opens(Phase::DoseFine { wh }, false, true, false, t)
}

// Settle of Dose: at its end the dose is complete, amount wH-w or 0 if below 0, Ready.
fn dose_settle(set: Settings, wh: Units, n: u64, t: Seen) -> Moved
    ensures { result ≡ dose_settle set wh (n + 1) t }
{
    if settle_ends(set, n, t.stable) {
        return completes(not_below_zero(wh, t.w), t.stable, t);
    }
    rests(Phase::DoseSettle { wh, n: n + 1 }, t)
}

// AL2, Ready: w < D opens 3, Load; else on start wH = w, Dose on the same tick.
fn ready_to_dose(set: Settings, t: Seen) -> Moved
    ensures { result ≡ ready_to_dose set t }
{
    if below(widened(t.w), set.dose) {
        return opens(Phase::Load, false, false, true, t);
    }
    if t.start {
        return dose_coarse(set, t.w, t);
    }
    rests(Phase::Ready, t)
}

// Ready, in each algorithm; in AL3 nothing happens without start.
fn ready(set: Settings, t: Seen) -> Moved
    ensures { result ≡ ready set t }
{
    if set.algorithm <= 1 {
        return ready_to_fill(set, t);
    }
    if (3 <= set.algorithm) & !t.start {
        return rests(Phase::Ready, t);
    }
    ready_to_dose(set, t)
}

// The phase rule of one tick.
pub fn step(set: Settings, phase: Phase, seen: Seen) -> Moved
    ensures { Steps set phase seen result }
{
    match phase {
        Phase::Ready => ready(set, seen),
        Phase::Coarse { w0 } => fill_coarse(set, w0, seen),
        Phase::Fine { w0 } => fill_fine(set, w0, seen),
        Phase::Hold => hold(seen),
        Phase::Settle { w0, n } => settle(set, w0, n, seen),
        Phase::Discharge { w0, ws, settled } => discharge(set, w0, ws, settled, seen),
        Phase::Load => load(set, seen),
        Phase::Calm { n } => calm(set, n, seen),
        Phase::DoseCoarse { wh } => dose_coarse(set, wh, seen),
        Phase::DoseFine { wh } => dose_fine(set, wh, seen),
        Phase::DoseSettle { wh, n } => dose_settle(set, wh, n, seen),
    }
}
