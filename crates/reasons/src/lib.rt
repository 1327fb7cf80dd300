// Why an output is as it is: the first reason that holds.
#![tactic(auto)]

ghost use Rattle.std.specs.Prelude.{◌≡◌, ◌*◌, ◌≤◌, eqb, leb, ◌-ℤ◌, nat_abs};
ghost use Rattle.laws.specs.Pick.{pick};
ghost use Rattle.dosing.specs.Rules.{units};
ghost use Rattle.controller.specs.Sound.{Sound};
ghost use Rattle.reasons.specs.Reasons.{settle, settling, lead_reached, in_phase, open_at, fault_cause, phase_cause, gate_by, alarm_cause};
ghost use Rattle.reasons.specs.Says.{says_name, cause_of, Explains};
ghost use Rattle.reasons.specs.Weights.{Comparable};

use controller::{Controller, Fault};
use dosing::{Gates, Phase, Units};
use settings::Settings;

// The phases by their names, without the stage.
#[derive(Clone, Copy, Debug, PartialEq, Eq)]
pub enum Name {
    Ready,
    Fill,
    Settle,
    Discharge,
    Load,
    Calm,
    Dose,
}

// Why an output is as it is.
#[derive(Clone, Copy, Debug, PartialEq, Eq)]
pub enum Reason {
    Open,
    // The channel is 0 for F21.
    Fault { number: u8, channel: u8 },
    Unused,
    NoStart,
    // The ticks gone and those allowed.
    Settling { gone: u64, allowed: u64 },
    // What is compared, w or wH-w, and its limit.
    Lead { w: Units, limit: u32 },
    Phase(Name),
    Overload,
    NoAlarm,
}

// R19: the number is no output's.
#[derive(Clone, Copy, Debug, PartialEq, Eq)]
pub enum ReasonError {
    R19,
}

// The first reason that holds of an output 1 to 4.
pub fn why(c: Controller, output: u8) -> Result<Reason, ReasonError>
    requires { Sound c }
    ensures { Explains c output result }
{
    if (output < 1) | (4 < output) {
        return Err(ReasonError::R19);
    }
    if output == 4 {
        return Ok(alarm_reason(c.condition, c.alarm));
    }
    let w = minus(c.f, c.z);
    let reason = gate_reason(c.set, c.gates, c.condition, c.unstarted, c.phase, w, output);
    Ok(reason)
}

// Output 4: fault, overload or no alarm.
fn alarm_reason(condition: Option<Fault>, alarm: bool) -> Reason
    ensures { cause_of result ≡ alarm_cause condition alarm }
{
    if let Some(fault) = condition {
        return fault_reason(fault);
    }
    if alarm {
        Reason::Overload
    } else {
        Reason::NoAlarm
    }
}

// Outputs 1 to 3: open, fault, unused, no start, else by the phase.
fn gate_reason(
    set: Settings,
    gates: Gates,
    condition: Option<Fault>,
    unstarted: bool,
    phase: Phase,
    w: Units,
    output: u8,
) -> Reason
    requires { Comparable phase w.v }
    ensures { cause_of result ≡ gate_by set gates condition unstarted phase w.v output }
{
    if is_open(gates, output) {
        return Reason::Open;
    }
    if let Some(fault) = condition {
        return fault_reason(fault);
    }
    if (set.algorithm == 0) & (output == 3) {
        return Reason::Unused;
    }
    if unstarted & !((set.algorithm == 2) & (output == 3)) {
        return Reason::NoStart;
    }
    phase_reason(set, phase, w, output)
}

// Output 1, 2 or 3 is open.
fn is_open(g: Gates, output: u8) -> bool
    ensures { result ≡ open_at g output }
{
    if output == 1 {
        return g.one;
    }
    if output == 2 {
        return g.two;
    }
    g.three
}

// The fault's number and channel, 0 for F21.
fn fault_reason(fault: Fault) -> Reason
    ensures { cause_of result ≡ fault_cause fault }
{
    match fault {
        Fault::F14(channel) => Reason::Fault {
            number: 14,
            channel,
        },
        Fault::F21 => Reason::Fault {
            number: 21,
            channel: 0,
        },
    }
}

// Settling, lead reached, else the phase.
fn phase_reason(set: Settings, phase: Phase, w: Units, output: u8) -> Reason
    requires { Comparable phase w.v }
    ensures { cause_of result ≡ phase_cause set phase w.v output }
{
    let wc = set.dose.saturating_sub(set.pc);
    let wf = set.dose.saturating_sub(set.pf);
    match phase {
        Phase::Ready => Reason::Phase(Name::Ready),
        Phase::Coarse { .. } => Reason::Phase(Name::Fill),
        Phase::Fine { .. } => at_wc(w, wc, output, Name::Fill),
        Phase::Hold => at_wf(w, wf, output, Name::Fill),
        Phase::Settle { n, .. } => in_settle(n, set.p9, w, wf, output),
        Phase::Discharge { .. } => Reason::Phase(Name::Discharge),
        Phase::Load => Reason::Phase(Name::Load),
        Phase::Calm { .. } => Reason::Phase(Name::Calm),
        Phase::DoseCoarse { .. } => Reason::Phase(Name::Dose),
        Phase::DoseFine { wh } => at_wc(minus(wh, w), wc, output, Name::Dose),
        Phase::DoseSettle { wh, .. } => at_wf(minus(wh, w), wf, output, Name::Settle),
    }
}

// The fine stage has reached Wc for output 1.
fn at_wc(x: Units, wc: u32, output: u8, name: Name) -> Reason
    ensures { cause_of result ≡ pick (eqb output 1) (lead_reached x.v wc) (in_phase (says_name name)) }
{
    if output == 1 {
        return Reason::Lead { w: x, limit: wc };
    }
    Reason::Phase(name)
}

// Settle and AL0's hold have reached Wf for outputs 1 and 2.
fn at_wf(x: Units, wf: u32, output: u8, name: Name) -> Reason
    ensures { cause_of result ≡ pick (leb output 2) (lead_reached x.v wf) (in_phase (says_name name)) }
{
    if output <= 2 {
        return Reason::Lead { w: x, limit: wf };
    }
    Reason::Phase(name)
}

// AL1's Settle at its tick number n: settling for output 3.
fn in_settle(n: u64, p9: u32, x: Units, wf: u32, output: u8) -> Reason
    ensures { cause_of result ≡ pick (eqb output 3) (settling n (256 * p9)) (pick (leb output 2) (lead_reached x.v wf) (in_phase settle)) }
{
    if output == 3 {
        return Reason::Settling {
            gone: n,
            allowed: dosing::SETTLE_TICKS * (p9 as u64),
        };
    }
    at_wf(x, wf, output, Name::Settle)
}

// a-b of two weights.
fn minus(a: Units, b: Units) -> Units
    requires { nat_abs (a.v -ℤ b.v) ≤ 1800000 }
    ensures { result ≡ units (a.v -ℤ b.v) }
{
    Units { v: a.v - b.v }
}
