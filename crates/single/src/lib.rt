// A weight as an IEEE single in two registers, the high word first.
#![tactic(auto)]

ghost use Rattle.std.specs.Prelude.{◌≡◌};
ghost use Rattle.single.specs.Single.{InRange, bits_of, Gives};

// The largest weight either way.
const MOST: u32 = 924998;

// Two registers, in the order in which they are sent.
#[derive(Clone, Copy, Debug, PartialEq, Eq)]
pub struct Words {
    pub high: u16,
    pub low: u16,
}

// The bits of the weight's single: no weight within the range is rounded.
fn bits_of(w: i32) -> u32
    requires { InRange w }
    ensures { result ≡ bits_of w }
{
    f32::to_bits(w as f32)
}

// The words of a weight, none outside the range.
pub fn words_of(w: i32) -> Option<Words>
    ensures { Gives w result }
{
    if w.unsigned_abs() > MOST {
        return None;
    }
    let bits = bits_of(w);
    Some(Words {
        high: (bits / 65536) as u16,
        low: (bits % 65536) as u16,
    })
}
