//! The texts of what ends the tool early.

use crate::compare::same;
use pmb_io::ToolFault;
use std::alloc::AllocError;

/// Each fault and its text.
static TEXTS: [(ToolFault, &str); 5] = [
    (ToolFault::Read, "read failed"),
    (ToolFault::Write, "write failed"),
    (ToolFault::TooManyReads, "too many reads"),
    (ToolFault::ProfileTooLong, "profile too long"),
    (ToolFault::Memory, "no memory"),
];

#[test]
fn faults_have_their_texts(rt: HostRuntime) -> Result<(), AllocError> {
    for (fault, text) in &TEXTS {
        let told = format!(in rt.alloc(); "{fault}")?;
        same(&rt, fault, told.as_str(), *text);
    }
    Ok(())
}
