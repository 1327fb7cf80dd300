// Settings, counter reset, counters and link start.
#![tactic(auto)]

ghost use Rattle.std.specs.Prelude.{◌≡◌};
ghost use Rattle.controller.specs.Sound.{Sound};
ghost use Rattle.setup.specs.Setup.{taken};
ghost use Rattle.setup.specs.Says.{set_error, Sets, Resets, Counted, Links};

use channels::Runs;
use controller::Controller;
use counters::Counters;
use dosing::Units;
use settings::{SettingError, Settings};
use window::Window;

// Why new settings are refused; R2 names the row.
#[derive(Clone, Copy, Debug, PartialEq, Eq)]
pub enum SetError {
    R3,
    R2(u32),
}

impl From<SettingError> for SetError {
    ghost from_gives = { λ error e. e ≡ set_error error };

    fn from(error: SettingError) -> SetError {
        match error {
            SettingError::R2(row) => SetError::R2(row),
        }
    }
}

// The controller after new settings, and the answer.
#[derive(Clone, Copy)]
pub struct Configured {
    pub next: Controller,
    pub answer: Result<(), SetError>,
}

// Why a counter reset is refused.
#[derive(Clone, Copy, Debug, PartialEq, Eq)]
pub enum ResetError {
    R3,
}

// The controller after a counter reset, and the answer.
#[derive(Clone, Copy)]
pub struct Cleared {
    pub next: Controller,
    pub answer: Result<(), ResetError>,
}

// Takes a set in Ready (R3), where it is good (R2).
pub fn configure(c: Controller, set: Settings) -> Configured
    requires { Sound c }
    ensures { Sets c set result }
{
    if !controller::is_ready(c.condition, c.phase) {
        return Configured {
            next: c,
            answer: Err(SetError::R3),
        };
    }
    match set.check() {
        Ok(()) => Configured {
            next: taken(set, c),
            answer: Ok(()),
        },
        Err(error) => Configured {
            next: c,
            answer: Err(SetError::from(error)),
        },
    }
}

// Puts count and total to 0 in Ready (R3).
pub fn reset(c: Controller) -> Cleared
    requires { Sound c }
    ensures { Resets c result }
{
    if !controller::is_ready(c.condition, c.phase) {
        return Cleared {
            next: c,
            answer: Err(ResetError::R3),
        };
    }
    Cleared {
        next: Controller {
            counters: Counters { count: 0, total: 0 },
            ..c
        },
        answer: Ok(()),
    }
}

// Count and total, at any time.
pub fn counted(c: Controller) -> Counters
    ensures { Counted c result }
{
    c.counters
}

// Sets or clears the link start, at any time.
pub fn link(mut c: Controller, on: bool) -> Controller
    requires { Sound c }
    ensures { Links c on result }
{
    c.link = on;
    c
}

// The filter is emptied, Z is 0, the runs are cleared and no tick was the last; all else is kept.
fn taken(set: Settings, mut c: Controller) -> Controller
    ensures { result ≡ taken set c }
{
    c.set = set;
    c.window = Window::new();
    c.z = Units { v: 0 };
    c.f = Units { v: 0 };
    c.s = 0;
    c.runs = Runs {
        one: 0,
        two: 0,
        three: 0,
    };
    c.unstarted = false;
    c
}
