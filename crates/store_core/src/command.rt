//! Commands as values, and executing them.

ghost use Rattle.std.specs.Prelude.{◌≡◌, IfOk};
ghost use Rattle.b3_core.specs.Work.{counted};
ghost use Rattle.store_core.specs.Commands.{reply_seen, seal_work_in};
ghost use Rattle.store_core.specs.Runs.{Releases, Step, change, reply_of, step_work};
ghost use Rattle.store_core.specs.Seen.{sealed_seen};

use crate::object::Object;
use crate::store::{Reply, Sealed, Store};
use b3_core::Work;
use b3_forest::Forest;
use std::marker::Model;
use std::sync::Arc;
use store_books::{Address, Refusal, TenantId, UploadId};

/// A command of the store, except a put. Lengths and limits are in bytes.
#[derive(Clone, Copy, Debug, PartialEq, Eq)]
pub enum Command {
    OpenTenant { limit: u64 },
    SetLimit { tenant: TenantId, limit: u64 },
    Begin { tenant: TenantId, len: u64 },
    BeginOpen { tenant: TenantId, at_most: u64 },
    Fix { upload: UploadId, len: u64 },
    Seal { upload: UploadId },
    SealAs { upload: UploadId, address: Address },
    Abort { upload: UploadId },
    Forget { tenant: TenantId, address: Address },
}

/// A sealed upload in a reply. In contracts its object is the object's bytes.
#[derive(Drop)]
pub struct SealReply {
    sealed: Sealed,
}

impl Model for SealReply {
    ghost use Rattle.store_core.specs.Commands.{ModelSealed};
    ghost use Rattle.store_core.specs.Seen.{sealed_seen};

    ghost Value = { ModelSealed };

    ghost view = { λ r. sealed_seen r.sealed };
}

impl SealReply {
    /// The reply of a seal.
    pub fn new(sealed: Sealed) -> SealReply
        ensures { result ≡ sealed_seen sealed }
    {
        SealReply { sealed }
    }

    /// The sealed upload.
    pub fn sealed(&self) -> &Sealed
        ensures { sealed_seen result.now ≡ self.now }
    {
        &self.sealed
    }
}

/// The reply of an accepted command, and what the command removed from the store, so that the caller can free it later.
#[derive(Drop)]
pub enum Outcome {
    Replied(Reply),
    Aborted(Forest),
    Forgot(Option<Arc<Object>>),
}

impl Outcome {
    /// The reply.
    pub fn reply(self) -> Reply
        ensures { result ≡ reply_of self }
    {
        match self {
            Outcome::Replied(reply) => reply,
            Outcome::Aborted(_) | Outcome::Forgot(_) => Reply::Done,
        }
    }
}

impl Store {
    /// Executes a command, and returns what it removes. A seal makes its compressions, any other command none.
    pub fn step(&mut self, command: Command, work: &mut Work) -> Result<Outcome, Refusal>
        ensures step { Step self.old (change command) (reply_seen reply_of result) self.new }
        ensures released { IfOk result (λ outcome. Releases self.old.state command outcome) }
        ensures count { work.new ≡ counted work.old (step_work self.old.state command) }
    {
        match command {
            Command::OpenTenant { limit } => {
                let tenant = self.open_tenant(limit)?;
                Ok(Outcome::Replied(Reply::Tenant(tenant)))
            }
            Command::SetLimit { tenant, limit } => {
                self.set_limit(tenant, limit)?;
                Ok(Outcome::Replied(Reply::Done))
            }
            Command::Begin { tenant, len } => {
                let (upload, plan) = self.begin(tenant, len)?;
                Ok(Outcome::Replied(Reply::Upload(upload, plan)))
            }
            Command::BeginOpen { tenant, at_most } => {
                let (upload, plan) = self.begin_open(tenant, at_most)?;
                Ok(Outcome::Replied(Reply::Upload(upload, plan)))
            }
            Command::Fix { upload, len } => {
                self.fix(upload, len)?;
                Ok(Outcome::Replied(Reply::Done))
            }
            Command::Seal { upload } => {
                let sealed = self.seal(upload, work)?;
                Ok(Outcome::Replied(Reply::Sealed(SealReply::new(sealed))))
            }
            Command::SealAs { upload, address } => {
                let sealed = self.seal_as(upload, address, work)?;
                Ok(Outcome::Replied(Reply::Sealed(SealReply::new(sealed))))
            }
            Command::Abort { upload } => Ok(Outcome::Aborted(self.abort(upload)?)),
            Command::Forget { tenant, address } => {
                Ok(Outcome::Forgot(self.forget(tenant, address)?))
            }
        }
    }
}
