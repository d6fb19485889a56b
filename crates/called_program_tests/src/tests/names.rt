//! The names of faults.

use json_fields::RequestFault;
use program::Fault;
use std::alloc::Global;
use std::fmt::Display;

// Whether the fault is called so.
fn is_called<F: Display>(alloc: Global, fault: &F, text: &str) -> bool {
    matches!(fault.to_string(alloc), Ok(told) if told.as_str() == text)
}

static OF_MESSAGES: &[(RequestFault, &str)] = &[
    (RequestFault::TooLong, "TooLong"),
    (RequestFault::Malformed, "Malformed"),
    (RequestFault::UnknownRequest, "UnknownRequest"),
    (RequestFault::BadField, "BadField"),
    (RequestFault::OutOfMemory, "OutOfMemory"),
];

static OF_SCRIPTS: &[(Fault, &str)] = &[
    (Fault::Input, "the script can't be read"),
    (Fault::Output, "the answers can't be written"),
    (Fault::OutOfMemory, "out of memory"),
];

#[test]
fn names_each_fault(rt: HostRuntime) {
    for (fault, text) in OF_MESSAGES {
        assert!(rt; is_called(rt.alloc(), fault, text), "{text}");
    }
    for (fault, text) in OF_SCRIPTS {
        assert!(rt; is_called(rt.alloc(), fault, text), "{text}");
    }
}
