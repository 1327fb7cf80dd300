// MODBUS RTU of a slave: the CRC, what a frame asks, and the replies to it.
#![tactic(auto)]

mod asks;
mod crc;
mod replies;

pub use asks::hear;
pub use crc::crc16;
pub use replies::{link_after, serve};

// The registers are 0 to 10.
const REGISTERS: usize = 11;

// The register of the link start, the only one written.
const LINK: u16 = 10;

// What a frame asks: registers from a first one on, the link start set or cleared, or what an exception answers.
#[derive(Clone, Copy, Debug, PartialEq, Eq)]
pub enum Ask {
    Registers { start: u16, quantity: u16 },
    Link(bool),
    Exception { function: u8, number: u8 },
}

// Whom a frame asks: this slave alone, or all, which is a link start.
#[derive(Clone, Copy, Debug, PartialEq, Eq)]
pub enum Asked {
    Ours(Ask),
    ForAll(bool),
}

// Why nothing is heard in a frame.
#[derive(Clone, Copy, Debug, PartialEq, Eq)]
pub enum HearError {
    R17,
}

// Why no reply is sent: the buffer is too short.
#[derive(Clone, Copy, Debug, PartialEq, Eq)]
pub enum SendError {
    R8,
}
