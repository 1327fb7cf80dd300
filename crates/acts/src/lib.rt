// What a call makes of the controller, and what it answers.
#![tactic(auto)]

ghost use Rattle.std.specs.Prelude.{◌≡◌, [], length, take};
ghost use Rattle.laws.specs.Decimal.{good, bad};
ghost use Rattle.controller.specs.Sound.{Sound};
ghost use Rattle.calls.specs.Call.{order, request, modbus};
ghost use Rattle.calls.specs.declared.Order.TheVariants.{Restart};
ghost use Rattle.acts.specs.Makes.{Acts};
ghost use Rattle.acts.specs.Hears.{roomed, heard_in};

use calls::{Call, Order};
use controller::{Controller, RestartError};
use counters::Counters;
use reasons::{Reason, ReasonError};
use settings::Settings;
use setup::{ResetError, SetError};

// What an order answers; that a frame was served, whose reply goes nowhere; that a call needs no box; or that a line is no call.
#[derive(Clone, Copy)]
pub enum Answer {
    Link,
    Set(Result<(), SetError>),
    Reset(Result<(), ResetError>),
    Counters(Counters),
    Restart(Result<(), RestartError>),
    Why(Result<Reason, ReasonError>),
    Frame,
    Aside,
    Unknown,
}

// The controller in use after a call, and the answer.
#[derive(Clone, Copy)]
pub struct Acted {
    pub next: Controller,
    pub answer: Answer,
}

// A restart; a refused one leaves the old controller in use.
fn restart(c: Controller, set: Settings, count: u32, total: u32) -> Acted
    requires { Sound c }
    ensures { Acts c (good (order (Restart set count total)) []) result }
{
    match Controller::restart(set, count, total) {
        Ok(new) => Acted {
            next: new,
            answer: Answer::Restart(Ok(())),
        },
        Err(error) => Acted {
            next: c,
            answer: Answer::Restart(Err(error)),
        },
    }
}

// What an order makes of the controller, and its answer.
pub fn order(c: Controller, ordered: Order) -> Acted
    requires { Sound c }
    ensures { Acts c (good (order ordered) []) result }
{
    match ordered {
        Order::Link(on) => Acted {
            next: setup::link(c, on),
            answer: Answer::Link,
        },
        Order::Settings(set) => {
            let configured = setup::configure(c, set);
            let next = configured.next;
            let answer = configured.answer;
            Acted {
                next,
                answer: Answer::Set(answer),
            }
        }
        Order::Reset => {
            let cleared = setup::reset(c);
            let next = cleared.next;
            let answer = cleared.answer;
            Acted {
                next,
                answer: Answer::Reset(answer),
            }
        }
        Order::Counters => Acted {
            next: c,
            answer: Answer::Counters(setup::counted(c)),
        },
        Order::Restart(set, count, total) => restart(c, set, count, total),
        Order::Why(output) => Acted {
            next: c,
            answer: Answer::Why(reasons::why(c, output)),
        },
    }
}

// A reply has at most so many bytes.
pub const REPLY: usize = 64;

// Bytes for one that goes nowhere.
fn no_reply() -> [u8; 64]
    ensures { 64 ≡ length result }
{
    [0u8; 64]
}

// What is no call leaves the controller.
fn unread(c: Controller) -> Acted
    requires { Sound c }
    ensures { Acts c bad result }
{
    Acted {
        next: c,
        answer: Answer::Unknown,
    }
}

// A line request on the first n bytes.
fn requested(c: Controller, n: usize, room: usize, bytes: &[u8]) -> Acted
    requires { Sound c }
    ensures { Acts c (roomed room (good (request (take n bytes.now) room) [])) result }
{
    if REPLY < room {
        return unread(c);
    }
    let mut reply = no_reply();
    let size = text::least(n, bytes.len());
    let requested = c.request(&bytes[..size], &mut reply[..room]);
    let next = requested.next;
    Acted {
        next,
        answer: Answer::Frame,
    }
}

// A MODBUS frame of the first n bytes.
fn polled(c: Controller, n: usize, room: usize, bytes: &[u8]) -> Acted
    requires { Sound c }
    ensures { Acts c (roomed room (good (modbus (take n bytes.now) room) [])) result }
{
    if REPLY < room {
        return unread(c);
    }
    let mut reply = no_reply();
    let size = text::least(n, bytes.len());
    let polled = panel::poll(c, &bytes[..size], &mut reply[..room]);
    let next = polled.next;
    Acted {
        next,
        answer: Answer::Frame,
    }
}

// What any call other than a tick makes of the controller, and its answer; a frame's bytes are the first of `bytes`.
pub fn other(c: Controller, call: Call, bytes: &[u8]) -> Acted
    requires { Sound c }
    ensures { Acts c (heard_in bytes.now call) result }
{
    match call {
        Call::Tick(_, _) => unread(c),
        Call::Request(n, room) => requested(c, n as usize, room as usize, bytes),
        Call::Modbus(n, room) => polled(c, n as usize, room as usize, bytes),
        Call::Order(ordered) => order(c, ordered),
        Call::Item(_) => Acted {
            next: c,
            answer: Answer::Aside,
        },
        Call::Bytes(_, _, _) => Acted {
            next: c,
            answer: Answer::Aside,
        },
        Call::Unknown => unread(c),
    }
}
