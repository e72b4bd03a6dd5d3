//! A session's access to its store.

ghost use Rattle.std.specs.Prelude.{◌≡◌, IfErr, IfOk, OnErr};
ghost use Rattle.std.specs.Arc.{arc_value};
ghost use Rattle.edge.specs.Output.{WroteSome};
ghost use Rattle.store_core.specs.Commands.{put_result, reply_seen};
ghost use Rattle.store_core.specs.Runs.{ask, change, put};
ghost use Rattle.store_core.specs.declared.store.questions.Question.TheVariants as questions;
ghost use Rattle.store_core.specs.declared.store.questions.Reply.TheVariants as replies;
ghost use Rattle.store_lines.specs.Access.{Reach, SessionState, ReportedEntries, ReportedThese, Took, TookPlan};

use crate::request::EntryRange;
use b3_core::Work;
use b3_forest::{Plan, Prepared};
use edge::Cause;
use std::alloc::Global;
use std::io::Write;
use std::sync::Arc;
use store_core::{
    Address, Command, Held, Object, Question, Refusal, Refused, Reply, TenantId, UploadId,
};

/// A session's access to its store: each call is one step of the model. It finds the store in a state that is linked to the one that the
/// session's last call may have left.
pub trait Access {
    ghost reach: { Reach };

    ghost stands: { Self → SessionState → Type 0 };

    /// Whether each line must end with a newline, including the last. If so, a line without one is not run.
    fn needs_newline(&self) -> bool
        ensures { result ≡ reach.needs_newline };

    /// Executes a command.
    fn step(&mut self, command: Command, work: &mut Work) -> Result<Reply, Refusal>
        ensures { Took reach (stands self.old) (stands self.new) (change command) result };

    /// Puts a prepared part. A refused one is returned.
    fn put(
        &mut self,
        upload: UploadId,
        part: Prepared,
        work: &mut Work,
    ) -> Result<Held, Refused<Refusal, Prepared>>
        ensures took { Took reach (stands self.old) (stands self.new) (put upload part) (reply_seen replies.Held (put_result result)) }
        ensures back { IfErr result (λ refused. refused.value ≡ part) };

    /// Answers a question.
    fn ask(&mut self, question: Question) -> Result<Reply, Refusal>
        ensures { Took reach (stands self.old) (stands self.new) (ask question) result };

    /// The plan of an upload.
    fn plan(&mut self, upload: UploadId) -> Result<Plan, Refusal>
        ensures { TookPlan reach (stands self.old) (stands self.new) upload result };

    /// An object that a tenant holds.
    fn fetch(&mut self, tenant: TenantId, address: Address) -> Result<Arc<Object>, Refusal>
        ensures { Took reach (stands self.old) (stands self.new) (ask (questions.Fetch tenant address)) (reply_seen (λ object. replies.Object (arc_value object)) result) };

    /// Writes the requested entries of the journal. Returns false, and writes nothing, if there is no memory for a copy of them.
    fn write_entries<W: Write>(
        &mut self,
        alloc: Global,
        writer: &mut W,
        range: EntryRange,
    ) -> Result<bool, Cause>
        ensures reported { IfOk result (λ given. ReportedEntries reach (stands self.old) (stands self.new) given range (W.contents writer.old) (W.contents writer.new)) }
        ensures failed { OnErr result (ReportedThese reach (stands self.old) (stands self.new) range (WroteSome (W.contents writer.old) (W.contents writer.new))) }
        ensures cause { IfErr result (λ cause. cause ≡ Cause.CannotWrite) };
}
