// The controller: fresh, restarted, tick and line request.
#![tactic(auto)]

mod line;
mod restart;
mod tick;

ghost use Rattle.std.specs.Prelude.{◌≡◌};
ghost use Rattle.controller.specs.Ready.{TellsReady};
ghost use Rattle.controller.specs.Says.{restart_error};

use asking::RequestError;
use channels::Runs;
use counters::{Counters, Record};
use dosing::{Gates, Phase, Units};
use settings::{SettingError, Settings};
use window::Window;

// F14 names its channel.
#[derive(Clone, Copy, Debug, PartialEq, Eq)]
pub enum Fault {
    F14(u8),
    F21,
}

// The box between two calls.
#[derive(Clone, Copy)]
pub struct Controller {
    pub set: Settings,
    // The samples held.
    pub window: Window,
    // Z, the zero.
    pub z: Units,
    // F of the previous tick.
    pub f: Units,
    // S, the calm run.
    pub s: u32,
    pub runs: Runs,
    pub phase: Phase,
    // Outputs 1 to 3.
    pub gates: Gates,
    // Output 4.
    pub alarm: bool,
    // The link start.
    pub link: bool,
    // The inputs last kept.
    pub inputs: u8,
    // The fault that lasts until restart, if there is one.
    pub condition: Option<Fault>,
    pub counters: Counters,
    // The last tick began and ended in Ready with start off, and no set or restart came since.
    pub unstarted: bool,
}

// What a tick answers: the outputs, with the dose record if one completed.
#[derive(Clone, Copy, Debug, PartialEq, Eq)]
pub struct Outputs {
    pub outputs: u8,
    pub dose: Option<Record>,
}

// A tick that answers no outputs: the fault, or R1.
#[derive(Clone, Copy, Debug, PartialEq, Eq)]
pub enum TickError {
    Fault(Fault),
    R1,
}

// The controller after a tick, and the answer.
#[derive(Clone, Copy)]
pub struct Ticked {
    pub next: Controller,
    pub answer: Result<Outputs, TickError>,
}

// Why a restart is refused; R2 names the row.
#[derive(Clone, Copy, Debug, PartialEq, Eq)]
pub enum RestartError {
    R2(u32),
    R15,
}

impl From<SettingError> for RestartError {
    ghost from_gives = { λ error e. e ≡ restart_error error };

    fn from(error: SettingError) -> RestartError {
        match error {
            SettingError::R2(row) => RestartError::R2(row),
        }
    }
}

// A reply sent: the place of the second closing FF and the reply's length.
#[derive(Clone, Copy, Debug, PartialEq, Eq)]
pub struct Sent {
    pub place: usize,
    pub len: usize,
}

// The controller after a line request, and the answer.
#[derive(Clone, Copy)]
pub struct Requested {
    pub next: Controller,
    pub answer: Result<Sent, RequestError>,
}

// The phase is Ready, and there is no fault.
pub fn is_ready(condition: Option<Fault>, phase: Phase) -> bool
    ensures { TellsReady condition phase result }
{
    condition.is_none() & stepping::at_ready(phase)
}
