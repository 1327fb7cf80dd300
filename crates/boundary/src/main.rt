// The boundary table of document 01. The cases marked P are one statement: see specs/.
// The others run here on the controller: each prints its name, a tab and what was seen.
#![tactic(auto)]

ghost use Rattle.std.specs.Prelude.{◌≡◌, ◌≤◌};
ghost use Rattle.controller.specs.Sound.{Sound};
ghost use Rattle.boundary.specs.Table.{al1};

use controller::{Controller, Fault, TickError, Ticked};
use settings::Settings;

// The run of Settle is given up after so many ticks.
const ENOUGH: u32 = 1000;

// AL1, C 1,000, D 500, Pc 100, Pf 20, M 50, p9 1; inputs at level 1.
fn al1() -> Settings
    ensures { result ≡ al1 }
{
    Settings {
        algorithm: 1,
        capacity: 1000,
        dose: 500,
        pc: 100,
        pf: 20,
        level: 50,
        p7: 4,
        p8: 4,
        p9: 1,
        p11: 0,
        o: 0,
        in1: 1,
        in2: 1,
        in3: 1,
        address: 1,
        serial: 0,
        point: 0,
        product: 0,
    }
}

// A restart with that set, which is not refused: all outputs are closed.
fn restarted() -> Ticked
    ensures { Sound result.next }
{
    Ticked {
        next: Controller::restart(al1(), 0, 0).unwrap(),
        answer: Ok(controller::Outputs {
            outputs: 0,
            dose: None,
        }),
    }
}

// The outputs that the last tick answered; in a fault output 4 alone is on, and R1 tells of none.
fn outputs(last: Ticked) -> u8 {
    match last.answer {
        Ok(told) => told.outputs,
        Err(TickError::Fault(_)) => 8,
        Err(TickError::R1) => 0,
    }
}

// One tick more, with start on or off and inputs 1 to 3 that match the outputs.
fn ticked(last: Ticked, sample: i32, start: bool) -> Ticked
    requires { Sound last.next }
    ensures { Sound result.next }
{
    let c = last.next;
    let inputs = outputs(last) % 8;
    if start {
        return c.tick(sample, inputs + 8);
    }
    c.tick(sample, inputs)
}

// Tick 0 of Settle: 480 and 482 after 479s make F 480, which shuts output 2.
fn at_settle() -> Ticked
    ensures { Sound result.next }
{
    let mut last = ticked(restarted(), 0, true);
    for _ in 0..8 {
        last = ticked(last, 479, true);
    }
    last = ticked(last, 480, true);
    ticked(last, 482, false)
}

// The sample of a tick of Settle.
fn sample(changing: bool, tick: u32) -> i32
    requires { tick ≤ 1000 }
{
    if changing { (482 + tick) as i32 } else { 480 }
}

// The tick of Settle on which output 3 opens; 0 where none does.
fn opens_on(changing: bool) -> u32 {
    let mut last = at_settle();
    for tick in 1..=ENOUGH {
        last = ticked(last, sample(changing, tick), false);
        if outputs(last) / 4 % 2 == 1 {
            return tick;
        }
    }
    0
}

// The last tick answered F14.
fn is_f14(last: Ticked) -> bool {
    matches!(last.answer, Err(TickError::Fault(Fault::F14(_))))
}

// Whether the last of so many mismatches in a row is F14: input 1 is on, and output 1 is shut.
fn mismatched(number: u32) -> bool {
    let mut last = restarted();
    for _ in 0..number {
        last = last.next.tick(0, 1);
    }
    is_f14(last)
}

// Output 4 with w at C and so much over.
fn alarm(over: u8) -> bool {
    let c = restarted().next;
    let last = c.tick((1000 + over as u32) as i32, 0);
    8 <= outputs(last)
}

// One line: a case's name with its tab, and the number of a tick.
fn print_tick(name: &[u8], tick: u32) {
    io::write_all(1, name);
    io::print_decimal(1, tick as u64);
    io::write_all(1, b"\n");
}

// One line: a case's name with its tab, and the one word or the other.
fn print_word(name: &[u8], on: bool, then: &[u8], other: &[u8]) {
    io::write_all(1, name);
    if on {
        io::write_all(1, then);
        return;
    }
    io::write_all(1, other);
}

// The cases in the order of the table.
fn main() {
    print_tick(b"settle, F constant\t", opens_on(false));
    print_tick(b"settle, F changing\t", opens_on(true));
    print_word(b"mismatches 63\t", mismatched(63), b"F14\n", b"goes on\n");
    print_word(b"mismatches 64\t", mismatched(64), b"F14\n", b"goes on\n");
    print_word(b"w C+9\t", alarm(9), b"alarm\n", b"no alarm\n");
    print_word(b"w C+10\t", alarm(10), b"alarm\n", b"no alarm\n");
}
