//! The clients of a display are served in its thread.

use crate::session_desks::NewKeeper;
use displays::Server;
use entry_store::EntryStore;
use hall_door::HallPage;
use hall_threads::HallWatch;
use port_threads::{ClientKeeper, Hall};
use session_clients::serve_session_hall;
use std::io::{Read, Write};
use std::net::{OpenListener, OpenStream};
use std::os::fd::AsRawFd;
use std::sync::Wait;
use std::time::Clock;

impl<'a, N: Server, K: EntryStore> ClientKeeper for NewKeeper<'a, N, K> {
    fn serve<R: Wait + Clock, L: OpenListener + AsRawFd>(
        self,
        rt: &R,
        hall: &Hall<'_, L>,
        watch: HallWatch,
    )
    where
        L::Stream: Read + Write + OpenStream + AsRawFd,
    {
        let page = HallPage::new(hall.page);
        let log = self.log();
        let keeper = serve_session_hall(
            rt,
            hall.alloc,
            hall.listener,
            watch,
            hall.plan,
            page,
            self.begin(),
            log,
        );
        drop(keeper);
    }
}
