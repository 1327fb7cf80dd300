// A journal line of either form and the V line, written and read back.
ghost use Rattle.roundtrip.specs.Lines.{EchoesLine, EchoesVersion};

use journal::{Entry, Form, Line, LineError};

// The longest line has so many bytes.
const LONGEST: usize = 31;

// Writes a line in a form, reads it back in that form, and answers the line that was read; the buffer is never too short.
pub fn echo(form: Form, line: Line) -> Result<Line, LineError>
    ensures { EchoesLine form line result }
{
    let mut buffer = [0u8; LONGEST];
    let Ok(len) = entry::write(form, line, &mut buffer) else {
        return Err(LineError::R10);
    };
    let Entry::Line(read) = journal::read_line(form, &buffer[..len])? else {
        return Err(LineError::R10);
    };
    Ok(read)
}

// Writes the V line, reads it back in the new form, and answers what was read.
pub fn echo_version() -> Result<Entry, LineError>
    ensures { EchoesVersion result }
{
    let mut buffer = [0u8; journal::VERSION_LEN];
    let _ = entry::write_version(&mut buffer);
    journal::read_line(Form::New, &buffer)
}
