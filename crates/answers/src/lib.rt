// The answer to a call that is no tick and no line request.
#![tactic(auto)]

ghost use Rattle.std.specs.Prelude.{[], length, take};
ghost use Rattle.laws.specs.Decimal.{good};
ghost use Rattle.controller.specs.Sound.{Sound};
ghost use Rattle.calls.specs.Call.{modbus};
ghost use Rattle.acts.specs.Makes.{Made};
ghost use Rattle.acts.specs.Hears.{roomed, answered_in};

use calls::Call;
use controller::Controller;

// The controller after the call, and the place after the text of its answer.
#[derive(Clone, Copy)]
pub struct Answered {
    pub controller: Controller,
    pub len: usize,
}

// ? for what is no call here.
fn put_unread(out: &mut [u8]) -> usize {
    pieces::line(out, 0, b'?', &[])
}

// A MODBUS frame; the buffer that it is lent is shown whole.
fn serve(c: Controller, frame: &[u8], reply: &mut [u8], out: &mut [u8]) -> Answered
    requires { Sound c }
    ensures { Made c (good (modbus frame.now (length reply.old)) []) result.controller }
{
    let polled = panel::poll(c, frame, reply);
    let said = polled.answer;
    let controller = polled.next;
    let len = boxed::modbus(out, said, reply);
    Answered { controller, len }
}

// A MODBUS frame of the first n bytes, with room for a reply.
fn poll(c: Controller, n: usize, room: usize, bytes: &[u8], out: &mut [u8]) -> Answered
    requires { Sound c }
    ensures { Made c (roomed room (good (modbus (take n bytes.now) room) [])) result.controller }
{
    if acts::REPLY < room {
        return Answered {
            controller: c,
            len: put_unread(out),
        };
    }
    let mut reply = pieces::no_reply();
    pieces::lend(&mut reply, room);
    let size = text::least(n, bytes.len());
    serve(c, &bytes[..size], &mut reply[..room], out)
}

// The text of the answer to a call that needs no box.
fn put_aside(out: &mut [u8], call: Call, bytes: &[u8], spare: &mut [u8]) -> usize {
    match call {
        Call::Item(item) => asides::item(out, item, spare),
        Call::Bytes(made, n, number) => {
            let size = pieces::within(n as usize, bytes);
            asides::bytes(out, made, number, &bytes[..size], spare)
        }
        _ => put_unread(out),
    }
}

// The call is made, and its answer put at the start of `out`.
fn put(c: Controller, call: Call, bytes: &[u8], spare: &mut [u8], out: &mut [u8]) -> Answered
    requires { Sound c }
    ensures { Made c (answered_in bytes.now call) result.controller }
{
    match call {
        Call::Modbus(n, room) => poll(c, n as usize, room as usize, bytes, out),
        Call::Order(order) => {
            let acted = acts::order(c, order);
            let said = acted.answer;
            let controller = acted.next;
            let len = boxed::put_order(out, said);
            Answered { controller, len }
        }
        _ => Answered {
            controller: c,
            len: put_aside(out, call, bytes, spare),
        },
    }
}

// The place so many bytes after another, at most the buffer's end.
fn place_after(out: &[u8], at: usize, len: usize) -> usize {
    let from = pieces::within(at, out);
    from + pieces::within(len, &out[from..])
}

// The call is made on the first of `bytes`, and its answer put at `at`; a writer's buffer is the start of `spare`.
pub fn answer(
    c: Controller,
    call: Call,
    bytes: &[u8],
    spare: &mut [u8],
    out: &mut [u8],
    at: usize,
) -> Answered
    requires { Sound c }
    ensures { Made c (answered_in bytes.now call) result.controller }
{
    let from = pieces::within(at, out);
    let mut answered = put(c, call, bytes, spare, &mut out[from..]);
    answered.len = place_after(out, from, answered.len);
    answered
}
