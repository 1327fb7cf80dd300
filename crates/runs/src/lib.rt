// Runs of ticks and line requests, each answered as it is made.
#![tactic(auto)]

ghost use Rattle.std.specs.Prelude.{◌≤◌, length};
ghost use Rattle.controller.specs.Sound.{Sound};
ghost use Rattle.runs.specs.Runs.{Reaches, Ran};

use calls::Call;
use controller::Controller;
use lines::Intake;

// Standard output.
const STDOUT_FILENO: i32 = 1;

// Where a run stopped: the controller, what is pending, the end of the answers, and the call that is no tick and no line request, whose bytes stand at the start of the lent buffer; none where it stopped for more input.
#[derive(Clone, Copy)]
pub struct Run {
    pub controller: Controller,
    pub intake: Intake,
    pub len: usize,
    pub stop: Option<Call>,
}

// So many bytes hold every answer.
const ENOUGH: usize = 4096;

// Writes the answers out.
pub fn write_out(out: &[u8], len: usize) {
    let n = pieces::within(len, out);
    io::write_all(STDOUT_FILENO, &out[..n]);
}

// Writes the answers out where there is no room for one more, and answers how many bytes still stand there.
fn with_room(out: &[u8], len: usize) -> usize
    ensures { result ≤ length out.now }
{
    let end = pieces::within(len, out);
    if out.len() - end < ENOUGH {
        write_out(out, end);
        return 0;
    }
    end
}

// How far ticks came: the controller, what is pending, and the end of the answers.
#[derive(Clone, Copy)]
struct Reached {
    controller: Controller,
    intake: Intake,
    len: usize,
}

// Answers the ticks that stand next, behind the first `at` bytes of `out`.
fn ticks(mut c: Controller, mut held: Intake, input: &[u8], out: &mut [u8], at: usize) -> Reached
    requires { Sound c }
    ensures { Reaches c held input.now result }
{
    let mut len = with_room(out, at);
    while let Some(tick) = script::tick_next(held, input) {
        held = Intake {
            at: tick.next,
            have: held.have,
            long: false,
        };
        let ticked = c.tick(tick.sample, tick.inputs);
        c = ticked.next;
        let end = boxed::say_tick(out, len, ticked.answer);
        len = with_room(out, end);
    }
    Reached {
        controller: c,
        intake: held,
        len,
    }
}

// Answers the whole lines of what is held, behind the first `len` bytes of `out`, up to one that is no tick and no line request; none where `bytes` has no room for those of a line.
pub fn answer(
    mut c: Controller,
    mut held: Intake,
    input: &[u8],
    bytes: &mut [u8],
    out: &mut [u8],
    mut len: usize,
) -> Run
    requires { Sound c }
    ensures { Ran c held input.now bytes.new result }
{
    if bytes.len() < calls::BYTES {
        return Run {
            controller: c,
            intake: held,
            len,
            stop: None,
        };
    }
    let mut reply = pieces::no_reply();
    loop {
        let reached = ticks(c, held, input, out, len);
        c = reached.controller;
        len = reached.len;
        let taken = reached.intake.next_line(input);
        held = taken.intake;
        let Some((from, to)) = taken.next else {
            return Run {
                controller: c,
                intake: held,
                len,
                stop: None,
            };
        };
        let call = calls::read(&input[from..to], bytes);
        let Call::Request(n, room) = call else {
            return Run {
                controller: c,
                intake: held,
                len,
                stop: Some(call),
            };
        };
        let size = n as usize;
        let most = room as usize;
        pieces::lend(&mut reply, most);
        let asked = c.request(&bytes[..size], &mut reply[..most]);
        let said = asked.answer;
        c = asked.next;
        len = boxed::say_request(out, len, said, most, &reply);
    }
}
