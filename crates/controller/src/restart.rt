// Fresh and restarted controllers.
ghost use Rattle.std.specs.Prelude.{◌≡◌};
ghost use Rattle.controller.specs.State.{restarted};
ghost use Rattle.controller.specs.Says.{Freshens, Restarts};

use crate::{Controller, RestartError};
use channels::Runs;
use counters::Counters;
use dosing::{Gates, Phase, Units};
use settings::Settings;
use window::Window;

impl Controller {
    // A restart with both at 0 and the default set.
    pub fn fresh() -> Controller
        ensures { Freshens result }
    {
        made(Settings::default(), 0, 0)
    }

    // A restart takes a set (R2) and then the stored count and total (R15); a refused one makes no controller.
    pub fn restart(set: Settings, count: u32, total: u32) -> Result<Controller, RestartError>
        ensures { Restarts set count total result }
    {
        set.check()?;
        if (Counters::COUNT_MOST < count) | (Counters::TOTAL_MOST < total) {
            return Err(RestartError::R15);
        }
        Ok(made(set, count, total))
    }
}

// A controller in Ready with an empty filter, Z at 0, no fault, no link start and all outputs closed.
fn made(set: Settings, count: u32, total: u32) -> Controller
    ensures { result ≡ restarted set count total }
{
    Controller {
        set,
        window: Window::new(),
        z: Units { v: 0 },
        f: Units { v: 0 },
        s: 0,
        runs: Runs::default(),
        phase: Phase::Ready,
        gates: Gates::default(),
        alarm: false,
        link: false,
        inputs: 0,
        condition: None,
        counters: Counters { count, total },
        unstarted: false,
    }
}
