// One box on a MODBUS line: lines of a script bring it where it shall be, and after an empty line each read is a frame.
#![tactic(auto)]

ghost use Rattle.std.specs.Prelude.{◌≡◌, length};
ghost use Rattle.controller.specs.Sound.{Sound};
ghost use Rattle.slave.specs.Serves.{len_of, Replies, Serves};

use controller::Controller;
use lines::Intake;
use panel::PollError;
use preset::Brought;
use std::io::Read;
use std::rt::Stdin;

// Standard output.
const STDOUT_FILENO: i32 = 1;

// The box after a frame, and how many bytes its reply has.
#[derive(Clone, Copy)]
struct Replied {
    next: Controller,
    len: usize,
}

// So many reads no input uses up.
const MANY: u64 = 9223372036854775808;

// A fresh box, before the first line.
fn at_start() -> Brought
    ensures { Sound result.controller }
{
    Brought {
        controller: Controller::fresh(),
        intake: Intake::start(),
        open: false,
    }
}

// Reads lines up to the empty one, or to the end of the input.
fn set_up(stdin: Stdin, input: &mut [u8]) -> Brought
    ensures { Sound result.controller }
{
    let mut brought = at_start();
    for _ in 0..MANY {
        let Ok(intake) = refill::refill(stdin, brought.intake, input) else {
            return brought;
        };
        brought = preset::bring(brought.controller, intake, input);
        if brought.open {
            return brought;
        }
    }
    brought
}

// How many bytes a reply has: none where the frame is silent.
fn len_of(answer: Result<usize, PollError>) -> usize
    ensures { result ≡ len_of answer }
{
    answer.unwrap_or(0)
}

// The reply to a frame, at the buffer's start.
fn reply_to(c: Controller, frame: &[u8], reply: &mut [u8]) -> Replied
    requires { Sound c }
    ensures { Replies c frame.now reply.old reply.new result }
{
    let polled = panel::poll(c, frame, reply);
    Replied {
        next: polled.next,
        len: len_of(polled.answer),
    }
}

// Bytes for a frame: it has at most 256, and one byte more shows that it is too long.
fn no_frame() -> [u8; 257]
    ensures { 257 ≡ length result }
{
    [0u8; 257]
}

// Serves a frame: the reply is written out.
fn serve(c: Controller, frame: &[u8]) -> Controller
    requires { Sound c }
    ensures { Serves c frame.now 257 result }
{
    let mut reply = no_frame();
    let replied = reply_to(c, frame, &mut reply);
    io::write_all(STDOUT_FILENO, &reply[..replied.len]);
    replied.next
}

// Serves frame after frame to the end of the input.
fn serve_frames(mut stdin: Stdin, mut c: Controller)
    requires { Sound c }
{
    let mut frame = no_frame();
    for _ in 0..MANY {
        let Ok(n) = stdin.read(&mut frame) else {
            return;
        };
        if n == 0 {
            return;
        }
        c = serve(c, &frame[..n]);
    }
}

// Brings the box where it shall be, then serves what follows.
fn main(rt: HostRuntime) {
    let stdin = rt.stdin();
    let mut input = io::large_buffer();
    let brought = set_up(stdin, &mut input);
    if !brought.open {
        return;
    }
    let behind = brought.intake;
    let held = lines::carry(&mut input, behind.at, behind.have);
    serve_frames(stdin, serve(brought.controller, &input[..held]));
}
