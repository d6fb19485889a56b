//! What is told once the port of a session is open.

ghost use Rattle.operator_lines.specs.Serving.{TellsServing};

use operator_lines::{ServingLine, tell_serving};
use port_threads::Announcement;
use std::alloc::Global;
use std::io::Write;

/// The line of a server that serves.
#[derive(Clone, Copy)]
pub(crate) struct ServingAnnouncement<'a> {
    pub(crate) alloc: Global,
    pub(crate) line: ServingLine<'a>,
}

impl Announcement for ServingAnnouncement<'_> {
    ghost tells = { λ announcement before after. TellsServing announcement.line before after };

    fn announce<E: Write>(&self, errors: &mut E) {
        tell_serving(self.alloc, &self.line, errors);
    }
}
