//! A port at which clients come.

use std::io;
use std::net::{Net, SocketAddr, TcpListener};
use std::os::fd::AsRawFd;

// How many clients may wait to be accepted: as many as the system allows.
const MOST_WAITING: i32 = i32::MAX;

/// Listens at an address and a port. As many clients may wait to be accepted as the system allows, 4,096 where it was told
/// nothing else.
pub fn listen<R: Net>(rt: &R, address: SocketAddr) -> io::Result<R::Listener> {
    let listener = TcpListener::bind(rt, address)?;
    // Who finds no room in the queue is left to the system, which breaks off with some after a minute, and std has room
    // for 128 alone. To listen again is to have a longer queue; where that fails, the first one serves.
    let _longer = libc::net::listen(listener.as_raw_fd(), MOST_WAITING);
    Ok(listener)
}
