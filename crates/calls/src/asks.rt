// Each kind of line, read behind its letter.
ghost use Rattle.std.specs.Prelude.{◌≡◌, ◌≤◌, length, drop};
ghost use Rattle.calls.specs.Call.{tick_at, link_at, why_at, settings_at, restart_at, bytes, bytes_call, write_field_at, read_field_at, dose_at, on_at};
ghost use Rattle.calls.specs.Reads.{size_of};
ghost use Rattle.calls.specs.Reading.{Ended, Asks, AsksBy};

use crate::{Call, Item, Order, Use, fields};
use field::{Field, Weight};
use journal::Line;
use operands::GREATEST;

// The call, where nothing of the line follows it.
pub(crate) fn ended(line: &[u8], end: usize, call: Call) -> Call
    ensures { Ended line.now end call result }
{
    if end < line.len() {
        return Call::Unknown;
    }
    call
}

// T sample inputs
pub(crate) fn tick(line: &[u8]) -> Call
    ensures { Asks line.now (tick_at (drop 1 line.now)) result × (size_of result ≡ 0) }
{
    let Some((sample, after)) = operands::signed_at(line, 1) else {
        return Call::Unknown;
    };
    let Some((inputs, end)) = text::field_at(line, after, 255) else {
        return Call::Unknown;
    };
    ended(line, end, Call::Tick(sample, inputs as u8))
}

// L 0 or 1
pub(crate) fn link(line: &[u8]) -> Call
    ensures { Asks line.now (link_at (drop 1 line.now)) result }
{
    let Some((on, end)) = text::field_at(line, 1, 1) else {
        return Call::Unknown;
    };
    ended(line, end, Call::Order(Order::Link(on == 1)))
}

// Y output
pub(crate) fn why(line: &[u8]) -> Call
    ensures { Asks line.now (why_at (drop 1 line.now)) result }
{
    let Some((output, end)) = text::field_at(line, 1, 255) else {
        return Call::Unknown;
    };
    ended(line, end, Call::Order(Order::Why(output as u8)))
}

// S SET; without a product it is 0.
pub(crate) fn set(line: &[u8]) -> Call
    ensures { Asks line.now (settings_at (drop 1 line.now)) result }
{
    let Some(numbers) = fields::numbers_at(line, 1, 17) else {
        return Call::Unknown;
    };
    let (v, next) = numbers;
    if line.len() <= next {
        return Call::Order(Order::Settings(operands::set_of(v, 0)));
    }
    let Some((product, end)) = text::field_at(line, next, GREATEST) else {
        return Call::Unknown;
    };
    ended(
        line,
        end,
        Call::Order(Order::Settings(operands::set_of(v, product))),
    )
}

// N SET count total; without a product it is 0.
pub(crate) fn restart(line: &[u8]) -> Call
    ensures { Asks line.now (restart_at (drop 1 line.now)) result }
{
    let Some(numbers) = fields::numbers_at(line, 1, 19) else {
        return Call::Unknown;
    };
    let (v, next) = numbers;
    if line.len() <= next {
        return Call::Order(Order::Restart(operands::set_of(v, 0), v[17], v[18]));
    }
    let Some((total, end)) = text::field_at(line, next, GREATEST) else {
        return Call::Unknown;
    };
    ended(
        line,
        end,
        Call::Order(Order::Restart(operands::set_of(v, v[17]), v[18], total)),
    )
}

// B, M, W and j: bytes and the room of a buffer; u: bytes and an hour. `call` makes the call of how many bytes and that number.
pub(crate) fn room<F: Fn(u32, u32) -> Call>(line: &[u8], most: u32, call: F) -> Call
    requires line { length line.now ≤ 4095 }
    requires call { F.IsAlwaysCallable call }
    ensures { AsksBy line.now most (λ n number r. F.post call n number r) result }
{
    if text::byte_at(line, 1) != text::TAB {
        return Call::Unknown;
    }
    let n = operands::count(line);
    let Some((number, end)) = text::field_at(line, 2 + 2 * n, most) else {
        return Call::Unknown;
    };
    ended(line, end, call(n as u32, number))
}

// X, l and m: bytes alone.
pub(crate) fn alone(line: &[u8], made: Use) -> Call
    requires { length line.now ≤ 4095 }
    ensures { Asks line.now (bytes_call (bytes made) (drop 1 line.now)) result }
{
    if text::byte_at(line, 1) != text::TAB {
        return Call::Unknown;
    }
    let n = operands::count(line);
    ended(line, 2 + 2 * n, Call::Bytes(made, n as u32, 0))
}

// G weight stable over point
pub(crate) fn weight(line: &[u8]) -> Call
    ensures { Asks line.now (write_field_at (drop 1 line.now)) result }
{
    let Some((value, after_value)) = operands::signed_at(line, 1) else {
        return Call::Unknown;
    };
    let Some((stable, after_stable)) = text::field_at(line, after_value, 1) else {
        return Call::Unknown;
    };
    let Some((over, after_over)) = text::field_at(line, after_stable, 1) else {
        return Call::Unknown;
    };
    let Some((point, end)) = text::field_at(line, after_over, 255) else {
        return Call::Unknown;
    };
    let weight = Weight {
        value,
        stable: stable == 1,
        over: over == 1,
        point: point as u8,
    };
    ended(line, end, Call::Item(Item::Weight(weight)))
}

// K four bytes
pub(crate) fn four(line: &[u8]) -> Call
    ensures { Asks line.now (read_field_at (drop 1 line.now)) result }
{
    if text::byte_at(line, 1) != text::TAB {
        return Call::Unknown;
    }
    if operands::count(line) != 4 {
        return Call::Unknown;
    }
    let field = Field {
        low: fields::byte_of(line, 0),
        middle: fields::byte_of(line, 1),
        high: fields::byte_of(line, 2),
        con: fields::byte_of(line, 3),
    };
    ended(line, 10, Call::Item(Item::Field(field)))
}

// D hour count amount settled product room
pub(crate) fn dose(line: &[u8]) -> Call
    ensures { Asks line.now (dose_at (drop 1 line.now)) result }
{
    let Some(numbers) = fields::numbers_at(line, 1, 5) else {
        return Call::Unknown;
    };
    let (v, next) = numbers;
    let Some((room, end)) = text::field_at(line, next, 64) else {
        return Call::Unknown;
    };
    let dose = Line::Dose {
        hour: v[0],
        count: v[1],
        amount: v[2],
        settled: v[3],
        product: v[4],
    };
    ended(line, end, Call::Item(Item::Line(dose, room)))
}

// H hour room
pub(crate) fn on(line: &[u8]) -> Call
    ensures { Asks line.now (on_at (drop 1 line.now)) result }
{
    let Some((hour, after)) = text::field_at(line, 1, GREATEST) else {
        return Call::Unknown;
    };
    let Some((room, end)) = text::field_at(line, after, 64) else {
        return Call::Unknown;
    };
    ended(line, end, Call::Item(Item::Line(Line::On { hour }, room)))
}
