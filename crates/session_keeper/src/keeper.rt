//! Who keeps a session, as queries see it.

ghost use Rattle.std.specs.Prelude.{◌≡◌, None, IfOk, IfErr, OnErr};
ghost use Rattle.published_view.specs.Reply.{before_answer};
ghost use Rattle.published_view.specs.View.{reply_after, digest_after, version_of};
ghost use Rattle.published_view.specs.declared.query_fault.QueryFault.TheVariants as fault;
ghost use Rattle.session_book.specs.Journal.{IsAccepted, replay};
ghost use Rattle.session_queries.specs.Query.{fact_of};
ghost use Rattle.session_state.specs.SessionState.{viewer_of};
ghost use Rattle.session_keeper.specs.Keeping.{GoesOn};

use published_view::{NoEntry, QueryFault};
use session_queries::{Query, Reply};
use session_roles::Edition;
use std::alloc::Global;
use user_names::{Digest, Name};

/// One who keeps a session. It stands for an accepted journal, which each call replaces by one that begins with it. None
/// of these calls waits.
pub trait Keeper: Drop {
    ghost use Rattle.std.specs.Prelude.{ℕ, List};
    ghost use Rattle.session_state.specs.SessionState.{SessionState};
    ghost use Rattle.session_commands.specs.declared.entry.Entry.{Entry};

    ghost opening: { Self → SessionState };

    ghost journal: { Self → List Entry };

    // How many entries of the session's journal this one has entered itself, in all.
    ghost own_entries: { Self → ℕ };

    // What others may add to the journal while this one is asked: from this journal to that one.
    ghost others: { List Entry → List Entry → Type 0 };

    // What it takes for no version to be entered; where that never happens nothing does.
    ghost no_entry: { Type 0 };

    // What it takes for a batch not to be kept; where that never happens nothing does.
    ghost not_kept: { Type 0 };

    /// The edition of the policy that the session is of. It is told whatever the keeper does otherwise.
    fn edition(&self) -> Edition
        ensures { result ≡ (opening self.now).public.edition };

    /// The reply to a user's query; the user wants no version older than `since`. Memory is refused only for an answer
    /// that nothing comes before: no denial is withheld for want of it.
    fn query(
        &mut self,
        alloc: Global,
        user: Name,
        query: &Query,
        since: u64,
    ) -> Result<Reply, QueryFault>
        ensures later { GoesOn (opening self.old) (journal self.old) (opening self.new) (journal self.new) }
        ensures accepted { IsAccepted (opening self.new) (journal self.new) }
        ensures reply { IfOk result (λ reply.
            reply ≡ reply_after (opening self.new) (journal self.new) user query.now since) }
        ensures unchanged { others (journal self.old) (journal self.new) }
        ensures own { own_entries self.new ≡ own_entries self.old }
        ensures none { IfErr result (λ why.
            why ≡ fault.NoEntry → no_entry × (journal self.new ≡ journal self.old)) }
        ensures memory { IfErr result (λ why. why ≡ fault.OutOfMemory →
            before_answer (replay (opening self.new) (journal self.new)).public (version_of (journal self.new))
            (viewer_of (replay (opening self.new) (journal self.new)) user) (fact_of query.now) since ≡ None) };

    /// The digest of the token with which a user signs in, if there is such a user. It takes no memory.
    fn digest(&mut self, name: Name) -> Result<Option<Digest>, NoEntry>
        ensures later { GoesOn (opening self.old) (journal self.old) (opening self.new) (journal self.new) }
        ensures accepted { IsAccepted (opening self.new) (journal self.new) }
        ensures digest { IfOk result (λ digest.
            digest ≡ digest_after (opening self.new) (journal self.new) name) }
        ensures unchanged { others (journal self.old) (journal self.new) }
        ensures own { own_entries self.new ≡ own_entries self.old }
        ensures none { OnErr result (no_entry × (journal self.new ≡ journal self.old)) };
}
