//! What a thread of a hall waits by.

use crate::source::Source;
use mio::unix::SourceFd;
use mio::{Events, Interest, Poll};
use std::alloc::Global;
use std::net::Net;
use std::os::fd::AsRawFd;
use std::time::{Clock, Instant};

// How many events the system tells at once.
const MOST_EVENTS: usize = 256;

/// Why a thread of a hall can't wait for clients.
#[derive(Clone, Copy, Debug, PartialEq, Eq)]
pub enum WatchError {
    /// Memory was refused.
    OutOfMemory,
    /// The system gives nothing to wait by, won't watch the listener, or doesn't tell the time.
    Refused,
}

/// What a thread of a hall waits by: what the system says is ready, of which the listener is the first, and the clock's time at
/// which that began.
#[derive(Drop)]
pub struct HallWatch {
    pub(crate) poll: Poll,
    pub(crate) events: Events<Global>,
    pub(crate) opened: Instant,
}

impl HallWatch {
    /// A watch over a listener that doesn't block.
    pub fn open<R: Net + Clock, L: AsRawFd>(
        rt: &R,
        alloc: Global,
        listener: &L,
    ) -> Result<HallWatch, WatchError> {
        let Ok(events) = Events::with_capacity(alloc, MOST_EVENTS) else {
            return Err(WatchError::OutOfMemory);
        };
        let (Ok(opened), Ok(poll)) = (Instant::now(rt), Poll::new(rt)) else {
            return Err(WatchError::Refused);
        };
        let fd = listener.as_raw_fd();
        let registered = poll.registry().register(
            &mut SourceFd(&fd),
            Source::Door.token(),
            Interest::READABLE,
        );
        if registered.is_err() {
            return Err(WatchError::Refused);
        }
        Ok(HallWatch {
            poll,
            events,
            opened,
        })
    }
}
