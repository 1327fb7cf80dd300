// Reads a first hour alone on a line and then a journal on standard input, and prints the week's sheet, or the one line of a refusal.
#![tactic(auto)]

ghost use Rattle.std.specs.Prelude.{◌≡◌, [], length};
ghost use Rattle.paper.specs.Answer.{refused};
ghost use Rattle.paper.specs.Numbers.{R21};
ghost use Rattle.sheet.specs.Lines.{first_line};
ghost use Rattle.sheet.specs.Says.{says_first};
ghost use Rattle.heading.specs.Heading.{Inside, said_of};

use heading::Found;

// Standard output.
const STDOUT_FILENO: i32 = 1;

// The first hour of the first line; R21 where it is none, and where there is no first line.
fn first_in(found: Found, buffer: &[u8]) -> Option<u32>
    requires { Inside found (length buffer.now) }
    ensures { says_first result ≡ said_of first_line (refused R21 []) found buffer.now }
{
    match found {
        Found::Line { from, to } => sheet::first_line(&buffer[from..to]),
        Found::More | Found::Nothing => None,
    }
}

// The first hour and the journal, and what is printed for them.
fn main(rt: HostRuntime) {
    let mut bytes = [0u8; journal::READ];
    let headed = heading::read_heading(rt.stdin(), &mut bytes);
    let first = first_in(headed.found, &bytes);
    let n = heading::read_journal(&mut bytes, headed);
    let out = sheet::report(first, &bytes, n);
    io::write_all(STDOUT_FILENO, &out.bytes[..out.len]);
}
