// An input that comes in blocks: the next whole line of what is held, and the bytes that are carried over to the next block.
#![tactic(auto)]

ghost use Rattle.std.specs.Prelude.{◌≡◌, false, ◌+◌, ◌≤◌, length};
ghost use Rattle.lines.specs.Places.{end_of, Carries};
ghost use Rattle.lines.specs.Intake.{HoldsNothing, HandsOver};

// What is carried from read to read: the bytes of the buffer from `at` to `have` are not done with; `long` says that the line that they go on is too long already.
#[derive(Clone, Copy)]
pub struct Intake {
    pub at: usize,
    pub have: usize,
    pub long: bool,
}

// The next whole line, from one place of the buffer to another; none where more has to be read.
#[derive(Clone, Copy)]
pub struct Taken {
    pub intake: Intake,
    pub next: Option<(usize, usize)>,
}

// A line has at most so many bytes, its LF left out.
const LONGEST: usize = 4095;

// The place of the first LF from `at` on, or that after the last byte, byte by byte.
fn end_from(block: &[u8], at: usize) -> usize
    ensures { result ≡ end_of block.now at }
{
    for i in at..block.len() {
        if block[i] == text::LF {
            return i;
        }
    }
    at.max(block.len())
}

// Whether an LF is among the n bytes from `at` on: all are looked at, which a compiler does at once.
fn has_lf(block: &[u8], at: usize, n: usize) -> bool
    requires { at + n ≤ length block.now }
    ensures { result ≡ false → end_of block.now (at + n) ≡ end_of block.now at }
{
    let mut found = false;
    for &b in &block[at..at + n] {
        found |= b == text::LF;
    }
    found
}

// The place of the first LF from `at` on, or that after the last byte: the first 8 bytes are looked at at once.
fn end_near(block: &[u8], at: usize) -> usize
    requires { at + 8 ≤ length block.now }
    ensures { result ≡ end_of block.now at }
{
    if has_lf(block, at, 8) {
        return end_from(block, at);
    }
    end_from(block, at + 8)
}

// The place of the first LF from `at` on, or that after the last byte.
fn line_end(block: &[u8], at: usize) -> usize
    ensures { result ≡ end_of block.now at }
{
    for i in (at..block.len()).step_by(16) {
        if block.len() - i < 16 {
            return end_from(block, i);
        }
        if has_lf(block, i, 16) {
            return end_near(block, i);
        }
    }
    at.max(block.len())
}

impl Intake {
    // Nothing is held.
    pub fn start() -> Intake
        ensures { HoldsNothing result }
    {
        Intake {
            at: 0,
            have: 0,
            long: false,
        }
    }

    // The next whole line of what is held, or that more has to be read.
    pub fn next_line(self, buffer: &[u8]) -> Taken
        ensures { HandsOver self buffer.now result }
    {
        let have = self.have.min(buffer.len());
        let end = line_end(&buffer[..have], self.at);
        let over = self.long | (LONGEST < end - self.at);
        if have <= end {
            let begun = Intake {
                at: end,
                have: self.have,
                long: true,
            };
            let intake = if over { begun } else { self };
            return Taken { intake, next: None };
        }
        let intake = Intake {
            at: end + 1,
            have: self.have,
            long: false,
        };
        let from = if over { end } else { self.at };
        Taken {
            intake,
            next: Some((from, end)),
        }
    }
}

// Moves the bytes from one place to another to the start, and answers how many they are.
pub fn carry(buffer: &mut [u8], from: usize, to: usize) -> usize
    ensures { Carries from to buffer.old buffer.new result }
{
    let end = to.min(buffer.len());
    let start = from.min(end);
    buffer.copy_within(start..end, 0);
    end - start
}
