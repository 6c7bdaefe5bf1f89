//! Frames: the bytes of Booth's datagrams, and the messages that they spell.
#![tactic(auto)]

mod codes;
mod command;
mod frame;
pub mod laws;
mod layout;
mod message;
mod reading;
mod writing;

pub use codes::{options, reasons, results};
pub use command::{Cmd, Direction, Kind};
pub use frame::{FRAME_BYTES, Frame};
pub use layout::AUTH_BYTES;
pub use message::{AttrPart, Body, FrameFault, Head, Message, Say, Setup, TermSpent, TicketPart};
pub use reading::decode;
pub use writing::encode;
