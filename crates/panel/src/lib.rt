// MODBUS frames of a panel.
#![tactic(auto)]

ghost use Rattle.std.specs.Prelude.{◌≡◌};
ghost use Rattle.controller.specs.State.{with_link};
ghost use Rattle.controller.specs.Sound.{Sound};
ghost use Rattle.panel.specs.Says.{Polls};
ghost use Rattle.panel.specs.declared.PollError.{PollError};

use controller::Controller;
use modbus::{HearError, SendError};

// Why a MODBUS frame is refused: nothing is heard in it, or its reply has no room.
#[derive(Clone, Copy, Debug, PartialEq, Eq)]
pub enum PollError {
    R17,
    R8,
}

// For a caller that hands modbus's refusals on by `?`; `poll` takes each apart by itself.
impl From<HearError> for PollError {
    ghost from_gives = { λ _ e. e ≡ PollError.R17 };

    fn from(_e: HearError) -> PollError {
        PollError::R17
    }
}

impl From<SendError> for PollError {
    ghost from_gives = { λ _ e. e ≡ PollError.R8 };

    fn from(_e: SendError) -> PollError {
        PollError::R8
    }
}

// The controller after a MODBUS frame, and the answer: the reply's length, 0 where there is none.
#[derive(Clone, Copy)]
pub struct Polled {
    pub next: Controller,
    pub answer: Result<usize, PollError>,
}

// A MODBUS frame, with a lent reply buffer.
pub fn poll(c: Controller, frame: &[u8], reply: &mut [u8]) -> Polled
    requires { Sound c }
    ensures { Polls c frame.now reply.old reply.new result }
{
    let address = c.set.address as u8;
    let Ok(asked) = modbus::hear(address, frame) else {
        return linked(c, c.link, Err(PollError::R17));
    };
    let link = modbus::link_after(asked, c.link);
    let window = c.window;
    let words = readout::table(
        c.set,
        &window.samples,
        window.held,
        c.z,
        c.s,
        c.inputs,
        c.gates,
        c.alarm,
        c.counters,
        c.link,
    );
    let Ok(len) = modbus::serve(address, words, asked, reply) else {
        return linked(c, c.link, Err(PollError::R8));
    };
    linked(c, link, Ok(len))
}

// A frame sets or clears the link start at most.
fn linked(mut c: Controller, link: bool, answer: Result<usize, PollError>) -> Polled
    ensures { (result.next ≡ with_link link c) × (result.answer ≡ answer) }
{
    c.link = link;
    Polled { next: c, answer }
}

#[cfg(test)]
mod tests {
    use super::*;

    #[test]
    fn modbus_errors_pass_through(rt: HostRuntime) {
        assert_eq!(rt; PollError::from(HearError::R17), PollError::R17);
        assert_eq!(rt; PollError::from(SendError::R8), PollError::R8);
    }
}
