//! What devices have in common.

/// A call of a device failed. The device counted it, and can be called again.
#[derive(Clone, Copy, Debug, PartialEq, Eq)]
pub struct DeviceFailed;
