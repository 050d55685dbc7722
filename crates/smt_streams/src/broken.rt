//! A device that has failed. This file knows no device.

/// A call of a device has failed. It moved no byte, and the device is not called again.
#[derive(Clone, Copy, Debug, PartialEq, Eq)]
pub struct Broken;
