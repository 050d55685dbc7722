//! Sources of bytes and sinks for them, whose calls move some bytes at a time, and may fail. This crate knows
//! no text and no line.
//!
//! A [`Source`] gives bytes by [`Source::pull`], and reports its end by 0 bytes. A [`Sink`] accepts bytes by
//! [`Sink::put`], one or more a call. A call that fails returns [`Broken`] and moves no byte, and the device
//! is not called again. Contracts name the bytes that a source has yet to give and those that a sink has
//! accepted, where these are known. For a file or a terminal they are not.
//!
//! A [`Device`] makes a source of what std reads from, and a sink of what std writes to. [`Pieces`] is a
//! source over bytes in memory, and [`Collected`] is a sink into a vector. Both have a bound on what a call
//! moves.
//!
//! ```text
//! let mut source = Device::new(file);
//! source.pull(&mut buf)                           // Ok(5): the next five bytes are at the front of `buf`
//! source.pull(&mut buf)                           // Ok(0): the end is reported
//! ```
#![tactic(auto)]

mod broken;
mod collected;
mod device;
mod pieces;
mod sink;
mod source;

pub use broken::Broken;
pub use collected::Collected;
pub use device::Device;
pub use pieces::Pieces;
pub use sink::{Sink, put_all};
pub use source::Source;

#[cfg(test)]
mod tests;
