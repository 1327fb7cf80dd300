// The samples held, newest first, and their mean.
#![tactic(auto)]

ghost use Rattle.std.specs.Prelude.{◌≡◌, ◌+◌, ◌*◌, ◌<◌, ◌≤◌, pos, nat_abs, length, get_or};
ghost use Rattle.window.specs.Mean.{half_up, round_away, mean_of};
ghost use Rattle.window.specs.Range.{Total};
ghost use Rattle.window.specs.Pass.{start_of, with_of, Passed, left_sum, left_count};
ghost use Rattle.window.specs.Window.{places};
ghost use Rattle.window.specs.Calls.{IsEmpty, Pushes, Means};

// The newest sample stands first; `held` of the places are in use.
#[derive(Clone, Copy)]
pub struct Window {
    pub samples: [i32; Window::PLACES],
    pub held: usize,
}

impl Window {
    // How many samples a window holds at most.
    pub const PLACES: usize = 128;

    // A window that holds no sample.
    pub fn new() -> Window
        ensures { IsEmpty result }
    {
        Window {
            samples: [0; Window::PLACES],
            held: 0,
        }
    }

    // The sample stands first, the others move one place on, the last of 128 falls out.
    pub fn push(self, x: i32) -> Window
        ensures { Pushes self x result }
    {
        let mut samples = [x; Window::PLACES];
        samples[1..].copy_from_slice(&self.samples[..Window::PLACES - 1]);
        Window {
            samples,
            held: self.held.min(Window::PLACES - 1) + 1,
        }
    }
}

// The mean of the last n of the samples lent, or of those held where they are fewer; of four or more without one largest and one smallest; of none it is 0.
pub fn mean_of(samples: &[i32], held: usize, n: usize) -> i32
    ensures { Means samples.now held n result }
{
    let count = n.min(held).min(samples.len()).min(Window::PLACES);
    if count == 0 {
        return 0;
    }
    mean(&samples[..count])
}

// What a pass over samples tells.
#[derive(Clone, Copy, Debug, PartialEq, Eq)]
struct Seen {
    // The sum, modulo 2^32.
    sum: u32,
    // The largest.
    high: i32,
    // The smallest.
    low: i32,
}

impl Seen {
    // Above all samples of which 128 have a sum that an i32 holds.
    const FAR: i32 = 16777216;

    // One sample more.
    fn with(self, x: i32) -> Seen
        ensures { result ≡ with_of self x }
    {
        Seen {
            sum: self.sum.wrapping_add_signed(x),
            high: self.high.max(x),
            low: self.low.min(x),
        }
    }
}

// A sum to divide, and by how many.
#[derive(Clone, Copy, Debug, PartialEq, Eq)]
struct Left {
    sum: i64,
    count: usize,
}

// The mean of samples: of four or more without one largest and one smallest.
fn mean(s: &[i32]) -> i32
    requires { (0 < length s.now) × (length s.now ≤ places) }
    ensures { result ≡ mean_of s.now }
{
    let seen = pass(s);
    let left = left_of(seen, whole(seen, s), s.len());
    rounded(left.sum, left.count) as i32
}

// The samples, one after the other: sum, largest and smallest together.
fn pass(s: &[i32]) -> Seen
    requires { 0 < length s.now }
    ensures { Passed (start_of (get_or s.now 0 (pos 0))) s.now result }
{
    let first = s[0];
    let mut seen = Seen {
        sum: 0,
        high: first,
        low: first,
    };
    for x in s {
        seen = seen.with(*x);
    }
    seen
}

// The sum of the samples: the one seen, or where a sample is far, added up in an i64.
fn whole(seen: Seen, s: &[i32]) -> i64
    requires { (0 < length s.now) × (length s.now ≤ places) × Passed (start_of (get_or s.now 0 (pos 0))) s.now seen }
    ensures { Total s.now result }
{
    if seen.high < Seen::FAR && seen.low > -Seen::FAR {
        seen.sum.cast_signed() as i64
    } else {
        total(s)
    }
}

// What the mean of n samples divides: with four or more the largest and the smallest are left out.
fn left_of(seen: Seen, sum: i64, n: usize) -> Left
    requires { (n ≤ places) × (nat_abs sum ≤ places * 2147483648) }
    ensures { (result.sum ≡ left_sum seen sum n) × (result.count ≡ left_count n) }
{
    if n < 4 {
        return Left { sum, count: n };
    }
    Left {
        sum: sum - seen.high as i64 - seen.low as i64,
        count: n - 2,
    }
}

// The sum of the samples.
fn total(s: &[i32]) -> i64
    requires { length s.now ≤ places }
    ensures { Total s.now result }
{
    let mut sum = 0;
    for x in s {
        sum += *x as i64;
    }
    sum
}

// m / n to the nearest, a half up.
fn half_up(m: u64, n: usize) -> u64
    requires { (0 < n) × (n ≤ places) × (m ≤ (places + 2) * 2147483648) }
    ensures { result ≡ half_up m n }
{
    let d = n as u64;
    (2 * m + d) / (2 * d)
}

// s / n to the nearest, a half away from zero: the magnitude rounded, then given its sign.
fn rounded(s: i64, n: usize) -> i64
    requires { (0 < n) × (n ≤ places) × (nat_abs s ≤ (places + 2) * 2147483648) }
    ensures { result ≡ round_away s n }
{
    let size = half_up(s.unsigned_abs(), n) as i64;
    if s < 0 { -size } else { size }
}
