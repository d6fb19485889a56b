//! What the thread of a keeper does.

use hall_threads::{HallPlan, HallWatch};
use page_answers::PageAnswers;
use service_threads::Task;
use std::alloc::Global;
use std::io::{Read, Write};
use std::net::{OpenListener, OpenStream};
use std::os::fd::AsRawFd;
use std::sync::Wait;
use std::time::Clock;

/// What the threads of all keepers have in common.
#[derive(Drop)]
pub struct Hall<'a, L: OpenListener> {
    /// What gives memory.
    pub alloc: Global,
    /// Where clients come. It doesn't block.
    pub listener: &'a L,
    /// What is handed out to whoever asks for no session, if there is a page.
    pub page: Option<&'a PageAnswers>,
    /// What each thread serves by.
    pub plan: HallPlan<'a>,
}

/// Who serves clients in a thread. What is over any such needs to know nothing of what it keeps, and a proof works none of it out.
pub trait ClientKeeper: Drop {
    /// Serves the clients that come to a hall, all beside one another: so many, or with 0 all that come.
    fn serve<R: Wait + Clock, L: OpenListener + AsRawFd>(
        self,
        rt: &R,
        hall: &Hall<'_, L>,
        watch: HallWatch,
    )
    where
        L::Stream: Read + Write + OpenStream + AsRawFd;
}

/// Serves the clients that come to a listener by one keeper.
#[derive(Drop)]
pub(crate) struct ServeClients<'a, Q, L: OpenListener> {
    pub(crate) hall: &'a Hall<'a, L>,
    pub(crate) watch: HallWatch,
    pub(crate) keeper: Q,
}

impl<'a, Q: ClientKeeper, L: OpenListener + AsRawFd> Task for ServeClients<'a, Q, L>
where
    L::Stream: Read + Write + OpenStream + AsRawFd,
{
    fn run<R: Wait + Clock>(self, rt: &R) {
        let ServeClients {
            hall,
            watch,
            keeper,
        } = self;
        keeper.serve(rt, hall, watch);
    }
}
