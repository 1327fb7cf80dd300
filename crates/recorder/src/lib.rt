// From samples to a journal: what each line of a script adds to it.
#![tactic(auto)]

ghost use Rattle.std.specs.Prelude.{◌≡◌, length};
ghost use Rattle.controller.specs.Says.{says_tick};
ghost use Rattle.recorder.specs.Recording.{heard_tick, Carries};
ghost use Rattle.recorder.specs.Noting.{Starts, Hears};
ghost use Rattle.recorder.specs.Feed.{Feeds};

use acts::Answer;
use clock::{Clock, Heard, Stage};
use controller::{Controller, Outputs, TickError};
use lines::Intake;

// What is carried from line to line.
#[derive(Clone, Copy)]
pub struct Recorder {
    pub controller: Controller,
    pub clock: Clock,
}

// What a buffer's lines gave: what is carried on, what is still pending, and how many bytes they added to the journal.
#[derive(Clone, Copy)]
pub struct Fed {
    pub next: Recorder,
    pub intake: Intake,
    pub len: usize,
}

// So many bytes hold all that a line adds.
pub const ENOUGH: usize = clock::ENOUGH;

// A tick that is not refused is counted.
fn heard_tick(answer: Result<Outputs, TickError>) -> Heard
    ensures { result ≡ heard_tick (says_tick answer) }
{
    match answer {
        Ok(told) => match told.dose {
            None => Heard::Ticked,
            Some(record) => Heard::Dosed(record),
        },
        Err(error) => match error {
            TickError::Fault(_) => Heard::Ticked,
            TickError::R1 => Heard::Other,
        },
    }
}

// What a call other than a tick was, by its answer: a refused restart changes nothing.
fn by_answer(answer: Answer) -> Heard
    ensures { Hears answer result }
{
    match answer {
        Answer::Restart(restart) => match restart {
            Ok(()) => Heard::Restarted,
            Err(_) => Heard::Other,
        },
        Answer::Unknown => Heard::Lost,
        _ => Heard::Other,
    }
}

// Bytes for those of a line.
fn no_bytes() -> [u8; 2048]
    ensures { 2048 ≡ length result }
{
    [0u8; 2048]
}

impl Recorder {
    // Before the first line: a fresh controller.
    pub fn start() -> Recorder
        ensures { Starts result }
    {
        Recorder {
            controller: Controller::fresh(),
            clock: Clock::start(),
        }
    }
}

// Notes line after line of a buffer, while 64 bytes of room are left.
pub fn feed(r: Recorder, intake: Intake, input: &[u8], out: &mut [u8]) -> Fed
    requires { Carries r }
    ensures { Feeds r intake input.now out.old out.new result }
{
    let mut bytes = no_bytes();
    let mut c = r.controller;
    let mut k = r.clock;
    let mut at = intake;
    let mut len: usize = 0;
    while ENOUGH <= out.len() - len {
        let Stage::Recording = k.stage else {
            let taken = at.next_line(input);
            at = taken.intake;
            let Some((from, to)) = taken.next else {
                break;
            };
            let Stage::First = k.stage else {
                continue;
            };
            let marked = k.first(&input[from..to], &mut out[len..]);
            k = marked.next;
            len += marked.len;
            continue;
        };
        if let Some(tick) = script::tick_next(at, input) {
            at = Intake {
                at: tick.next,
                have: at.have,
                long: false,
            };
            let ticked = c.tick(tick.sample, tick.inputs);
            c = ticked.next;
            let marked = k.heard(heard_tick(ticked.answer), &mut out[len..]);
            k = marked.next;
            len += marked.len;
            continue;
        }
        let taken = at.next_line(input);
        at = taken.intake;
        let Some((from, to)) = taken.next else {
            return Fed {
                next: Recorder {
                    controller: c,
                    clock: k,
                },
                intake: at,
                len,
            };
        };
        let call = calls::read(&input[from..to], &mut bytes);
        let acted = acts::other(c, call, &bytes);
        c = acted.next;
        k = k.passed(by_answer(acted.answer));
    }
    Fed {
        next: Recorder {
            controller: c,
            clock: k,
        },
        intake: at,
        len,
    }
}
