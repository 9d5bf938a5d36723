//! The commands of this layer.

pub(crate) mod check_capture;
pub(crate) mod show;
pub(crate) mod whole;
mod written;
