//! A reader that fails in the middle.

use crate::reading::{ReadFault, read_whole};
use std::io::ErrorKind;
use test_devices::FailingReader;

#[test]
fn what_is_read_in_part_is_no_file(rt: HostRuntime) {
    for (fault, want) in [
        (ErrorKind::PermissionDenied, ReadFault::Unread),
        (ErrorKind::OutOfMemory, ReadFault::OutOfMemory),
    ] {
        let reader = FailingReader {
            bytes: b"export {};",
            good: 4,
            fault,
        };
        assert!(&rt; matches!(read_whole(rt.alloc(), reader, 100), Err(found) if found == want));
    }
}
