// Requests on the line.
ghost use Rattle.controller.specs.Sound.{Sound};
ghost use Rattle.controller.specs.Says.{Replies, requested};

use crate::{Controller, Requested, Sent, is_ready};
use asking::RequestError;
use dosing::Units;

impl Controller {
    // A line request on the bytes offered, with a lent reply buffer; a refusal changes nothing.
    pub fn request(self, bytes: &[u8], reply: &mut [u8]) -> Requested
        requires { Sound self }
        ensures { Replies self bytes.now reply.old reply.new result }
    {
        let (z, answer) = match self.replied(bytes, reply) {
            Ok((z, sent)) => (z, Ok(sent)),
            Err(error) => (self.z, Err(error)),
        };
        Requested {
            next: Controller { z, ..self },
            answer,
        }
    }

    // The reply and Z after it, or the first refusal.
    fn replied(self, bytes: &[u8], reply: &mut [u8]) -> Result<(Units, Sent), RequestError>
        requires { Sound self }
        ensures { Replies self bytes.now reply.old reply.new (requested self result) }
    {
        // Taken first of all the samples are copied once; later the compiler would copy them again.
        let window = self.window;
        let heard = asking::hear(bytes);
        let place = heard.place;
        let Some(body) = heard.body else {
            return Err(RequestError::R9(place));
        };
        let Ok(parts) = body else {
            return Err(RequestError::R6(place));
        };
        let form = parts.form;
        let operation = parts.operation;
        let Ok(()) = asking::address_stage(place, form, self.set.address, self.set.serial) else {
            return Err(RequestError::R5(place));
        };
        let Ok(()) = asking::code_stage(place, parts) else {
            return Err(RequestError::R7(place));
        };
        let held = window.held;
        // C0 wants Ready; no other request does.
        let timely = (operation != asking::C0) | is_ready(self.condition, self.phase);
        let zero = readout::zero_of(operation, self.set, &window.samples, held, self.z);
        let Ok(()) = asking::ready_stage(place, timely) else {
            return Err(RequestError::R3(place));
        };
        let Ok(()) = asking::zero_stage(place, zero.is_ok()) else {
            return Err(RequestError::R4(place));
        };
        let holds = readout::reply_of(
            operation,
            self.set,
            &window.samples,
            held,
            self.z,
            self.s,
            self.inputs,
            self.gates,
            self.alarm,
        );
        let z = zero.unwrap_or(self.z);
        let Ok(len) = asking::write_reply(form, operation, holds, reply) else {
            return Err(RequestError::R8(place));
        };
        Ok((z, Sent { place, len }))
    }
}
