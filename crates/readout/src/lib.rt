// What a master asks of the box's parts: whether C0 may zero and to what, a reply's data, and the registers; no controller.
#![tactic(auto)]

ghost use Rattle.std.specs.Prelude.{◌≡◌};
ghost use Rattle.scale.specs.Scale.{as_window, weight_by};
ghost use Rattle.readout.specs.Readout.{weight_in, words_in};
ghost use Rattle.readout.specs.Says.{Zeroed, Replies, Lists};

use asking::{C0, C2, C3, C4, C5, Reply};
use counters::Counters;
use dosing::{Gates, Units};
use registers::Values;
use settings::Settings;
use single::Words;

// Z after a request, or the F that the samples do not allow C0 to take (`samples` and `held` stay two parameters: `Zeroed` promises for any two): C0 asks AL0 or AL1, a sample held, and -M < F < M, and then Z becomes F; no other request asks it, and Z stays.
pub fn zero_of(
    operation: u8,
    set: Settings,
    samples: &[i32],
    held: usize,
    z: Units,
) -> Result<Units, Units>
    ensures { Zeroed operation set (as_window samples.now held) z result }
{
    if operation != C0 {
        return Ok(z);
    }
    let f = scale::mean_lent(samples, held, set.p8);
    if set.algorithm <= 1 && !scale::holds_none(samples, held) && dosing::near_zero(set, f) {
        Ok(f)
    } else {
        Err(f)
    }
}

// Weight and CON, filtered by n samples; nothing where they cannot be written.
fn weight_reply(set: Settings, samples: &[i32], held: usize, z: Units, s: u32, n: u32) -> Reply
    ensures { result ≡ weight_in (weight_by set (as_window samples.now held) z s n) }
{
    let Ok(v) = scale::weigh(set, samples, held, z, s, n) else {
        return Reply::Nothing;
    };
    let Ok(f) = field::write(v) else {
        return Reply::Nothing;
    };
    Reply::Weight(f)
}

// C3 and C2 answer weight and CON by p8 and p7, C4 the inputs last kept, C5 the outputs, C0 nothing.
pub fn reply_of(
    operation: u8,
    set: Settings,
    samples: &[i32],
    held: usize,
    z: Units,
    s: u32,
    inputs: u8,
    gates: Gates,
    alarm: bool,
) -> Reply
    ensures { Replies operation set (as_window samples.now held) z s inputs gates alarm result }
{
    match operation {
        C3 => weight_reply(set, samples, held, z, s, set.p8),
        C2 => weight_reply(set, samples, held, z, s, set.p7),
        C4 => Reply::Byte(inputs),
        C5 => Reply::Byte(channels::outputs_of(gates, alarm)),
        _ => Reply::Nothing,
    }
}

// The words of a weight, filtered by n samples; zeros where an f32 does not hold it.
fn weight_words(set: Settings, samples: &[i32], held: usize, z: Units, s: u32, n: u32) -> Words
    ensures { result ≡ words_in (weight_by set (as_window samples.now held) z s n) }
{
    let zeros = Words { high: 0, low: 0 };
    let Ok(v) = scale::weigh(set, samples, held, z, s, n) else {
        return zeros;
    };
    single::words_of(v.value).unwrap_or(zeros)
}

// The registers 0 to 10.
pub fn table(
    set: Settings,
    samples: &[i32],
    held: usize,
    z: Units,
    s: u32,
    inputs: u8,
    gates: Gates,
    alarm: bool,
    n: Counters,
    link: bool,
) -> [u16; 11]
    ensures { Lists set (as_window samples.now held) z s inputs gates alarm n link result }
{
    registers::words(Values {
        c3: weight_words(set, samples, held, z, s, set.p8),
        c2: weight_words(set, samples, held, z, s, set.p7),
        inputs,
        outputs: channels::outputs_of(gates, alarm),
        count: n.count,
        total: n.total,
        link,
    })
}
