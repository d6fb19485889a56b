//! What the copies keep, and what each step on them tells.

use crate::view_copy::{Publication, ViewCopy};
use crossbeam_utils::rule::{Outcome, Protocol};
use left_right::reader::{Factory, Reader};
use left_right::writer::Writer;
use std::marker::{Brand, PhantomData};
use std::sync::ledger::Ledger;

/// Names a server: the state with which its session opens, the history of its publications, and the ledger in which those
/// who enter something are counted. The caller that opens the copies picks them, and what is of one server has one such
/// name.
pub trait Server: Ledger {
    ghost use Rattle.session_state.specs.SessionState.{SessionState};
    ghost use Rattle.logbook.specs.Pages.{Book};

    ghost opening: { SessionState };

    ghost history: { Book };
}

impl Server for Brand {
    ghost use Rattle.displays.specs.NoSession.{no_session};

    ghost opening = { no_session };

    ghost history = { record { number = 0; log_name = 0; cells_name = 0 } };
}

/// The rule of the copies: the one that is shown stands for publications of the server's history. A thread knows nothing
/// else.
pub struct Copies<N> {
    of: PhantomData<N>,
}

impl<N: Server> Protocol<ViewCopy, ()> for Copies<N> {
    ghost use Rattle.displays.specs.Copies.{ShowsPublished};

    ghost holds = { λ c _. ShowsPublished N.opening N.history c };

    ghost first = { tt };
}

/// A display sees such a copy.
pub(crate) struct Looks<N> {
    of: PhantomData<N>,
}

impl<N: Server> Outcome<ViewCopy, ()> for Looks<N> {
    ghost use Rattle.displays.specs.Copies.{ShowsPublished};

    ghost then = { λ v x y w. ShowsPublished N.opening N.history y };
}

pub(crate) type CopyFactory<N> = Factory<ViewCopy, (), Copies<N>>;

pub(crate) type CopyReader<N> = Reader<ViewCopy, (), Copies<N>>;

pub(crate) type CopyWriter<N> = Writer<ViewCopy, Publication, (), Copies<N>>;
