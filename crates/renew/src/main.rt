// Reads a journal of the old form on standard input and prints it in the new form, or the one line of a refusal.
#![tactic(auto)]

// Standard input.
const STDIN_FILENO: i32 = 0;

// Standard output.
const STDOUT_FILENO: i32 = 1;

fn main() {
    let mut bytes = [0u8; journal::READ];
    let n = io::read_full(STDIN_FILENO, &mut bytes);
    let made = archive::renewed(&bytes, n);
    io::write_all(STDOUT_FILENO, &made.bytes[..made.len]);
}
