//! What errors of the system come to, and lines as they are printed.

use crate::{
    FileFault, KeptIn, MemoryFor, Obstacle, PortFault, ServingLine, status_of_obstacle,
    tell_serving,
};
use std::alloc::Global;
use std::io::ErrorKind;
use std::net::{IpAddr, Ipv4Addr, Ipv6Addr, SocketAddr};

static FILES: &[(ErrorKind, FileFault)] = &[
    (ErrorKind::NotFound, FileFault::Missing),
    (ErrorKind::NotADirectory, FileFault::Missing),
    (ErrorKind::PermissionDenied, FileFault::Forbidden),
    (ErrorKind::ReadOnlyFilesystem, FileFault::Forbidden),
    (ErrorKind::IsADirectory, FileFault::Folder),
    (ErrorKind::StorageFull, FileFault::Full),
    (ErrorKind::QuotaExceeded, FileFault::Full),
    (ErrorKind::Interrupted, FileFault::Failed),
];

static PORTS: &[(ErrorKind, PortFault)] = &[
    (ErrorKind::AddrInUse, PortFault::Taken),
    (ErrorKind::PermissionDenied, PortFault::Forbidden),
    (ErrorKind::AddrNotAvailable, PortFault::Elsewhere),
    (ErrorKind::Interrupted, PortFault::Failed),
];

#[test]
fn errors_of_the_system_have_words(rt: HostRuntime) {
    for &(kind, fault) in FILES {
        assert!(rt; FileFault::of_kind(kind) == fault, "{fault:?}");
    }
    for &(kind, fault) in PORTS {
        assert!(rt; PortFault::of_kind(kind) == fault, "{fault:?}");
    }
}

static OBSTACLES: &[(Obstacle<'static>, u8, &str)] = &[
    (
        Obstacle::Unread("club.pbn", FileFault::Missing),
        3,
        "bridge_server: Unread (club.pbn: there is no such file or folder)\n",
    ),
    (
        Obstacle::Unwritten("thursday", FileFault::Full),
        3,
        "bridge_server: Unwritten (thursday: there is no room on the disk)\n",
    ),
    (
        Obstacle::NotListening(8080, PortFault::Taken),
        3,
        "bridge_server: NotListening (port 8080: another program listens there)\n",
    ),
    (
        Obstacle::OutOfMemory(MemoryFor::Session),
        4,
        "bridge_server: OutOfMemory (for the session)\n",
    ),
];

// Whether an obstacle is told so, with this status.
fn is_told(alloc: Global, obstacle: &Obstacle<'_>, status: u8, line: &str) -> bool {
    let mut told = Vec::new(alloc);
    status_of_obstacle(alloc, obstacle, &mut told) == status && told.as_slice() == line.as_bytes()
}

#[test]
fn obstacles_have_lines(rt: HostRuntime) {
    for (obstacle, status, line) in OBSTACLES {
        assert!(rt; is_told(rt.alloc(), obstacle, *status, line), "{line}");
    }
}

// Where a server serves, and what it tells then.
static SERVED: &[(IpAddr, &str)] = &[
    (
        IpAddr::V4(Ipv4Addr::LOCALHOST),
        "bridge_server: serves at 127.0.0.1:8080: 8 tables, 4 displays, 2 workers, journal evening.journal at version 17\n",
    ),
    (
        IpAddr::V4(Ipv4Addr::UNSPECIFIED),
        "bridge_server: other computers can come: without TLS in front of it tokens travel in clear
bridge_server: serves at 0.0.0.0:8080: 8 tables, 4 displays, 2 workers, journal evening.journal at version 17\n",
    ),
    (
        IpAddr::V6(Ipv6Addr::LOCALHOST),
        "bridge_server: serves at [::1]:8080: 8 tables, 4 displays, 2 workers, journal evening.journal at version 17\n",
    ),
];

#[test]
fn a_server_has_a_line(rt: HostRuntime) {
    for &(address, lines) in SERVED {
        let serving = ServingLine {
            address: SocketAddr::from((address, 8080)),
            tables: 8,
            displays: 4,
            workers: 2,
            kept: KeptIn::Journal("evening.journal", 17),
        };
        let mut told = Vec::new(rt.alloc());
        tell_serving(rt.alloc(), &serving, &mut told);
        assert!(rt; told.as_slice() == lines.as_bytes(), "{lines}");
    }
}
