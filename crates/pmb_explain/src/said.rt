//! What is said of a fault, and the page that has its rules.

use crate::fault::Fault;
use crate::said_of_arguments::of_argument;
use crate::said_of_lines::{of_host, of_line, of_quantity};
use crate::said_of_numbers::{of_format, of_number};
use crate::said_of_profiles::of_profile;
use crate::said_of_reasons::{BAD_TOKEN, of_reason};

/// What is said of a fault.
#[derive(Clone, Copy)]
pub struct Said {
    /// What it means, and what to do: lines of at most 96 bytes, with LF between them.
    pub text: &'static str,
    /// The page that has its rules, with the section.
    pub page: &'static str,
}

impl Fault {
    /// What it means, and where more stands.
    pub fn said(self) -> Said {
        match self {
            Fault::Reason(reason) => of_reason(reason),
            Fault::BadToken => BAD_TOKEN,
            Fault::Profile(what) => of_profile(what),
            Fault::Line(fault) => of_line(fault),
            Fault::Host(fault) => of_host(fault),
            Fault::Quantity(fault) => of_quantity(fault),
            Fault::Number(fault) => of_number(fault),
            Fault::Format(fault) => of_format(fault),
            Fault::Argument(fault) => of_argument(fault),
        }
    }

    /// What has such a fault.
    pub fn subject(self) -> &'static str {
        match self {
            Fault::Reason(_) => "a protocol error in a capture",
            Fault::BadToken => "in a capture",
            Fault::Profile(_) => "in a profile",
            Fault::Line(_) => "in a line of build or run",
            Fault::Host(_) | Fault::Quantity(_) => "in a request of run",
            Fault::Number(_) => "in a line of encode or decode",
            Fault::Format(_) => "in FORMAT",
            Fault::Argument(_) => "on the command line",
        }
    }
}
