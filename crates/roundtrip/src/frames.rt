// A body, framed and read back.
ghost use Rattle.roundtrip.specs.Frames.{EchoesBody};

// The body that was read back, of len bytes; the places past it are 0.
#[derive(Clone, Copy)]
pub struct Echo {
    pub body: [u8; 255],
    pub len: usize,
}

// The writer's refusal.
#[derive(Clone, Copy, Debug, PartialEq, Eq)]
pub enum EchoError {
    R14,
}

// Writes a body's frame, reads it back, and answers the body that was read.
pub fn echo_frame(body: &[u8]) -> Result<Echo, EchoError>
    ensures { EchoesBody body.now result }
{
    let mut line = [0u8; 513];
    let Ok(n) = frame::write_frame(body, &mut line) else {
        return Err(EchoError::R14);
    };
    let Ok(back) = frame::read_frame(&line[..n]) else {
        return Err(EchoError::R14);
    };
    let len = back.len - 1;
    let mut bytes = back.body;
    bytes[len] = 0;
    Ok(Echo { body: bytes, len })
}
