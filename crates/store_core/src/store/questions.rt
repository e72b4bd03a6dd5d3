//! Questions: as values, their replies, and the calls that answer them.

ghost use Rattle.std.specs.Prelude.{◌≡◌, IfOk, length, map};
ghost use Rattle.std.specs.Arc.{arc_value};
ghost use Rattle.b3_core.specs.Modes.{hash_of};
ghost use Rattle.store_books.specs.Books.{IsRisingFrom, totals_of};
ghost use Rattle.store_books.specs.Questions.{usage_in};
ghost use Rattle.store_core.specs.Questions.{Answers, AnswersAs, counts_of, fetch_in, holds_in, list_in, plan_in, tenants_in, uploads_in};
ghost use Rattle.store_core.specs.Questions.{objects_in};
ghost use Rattle.store_core.specs.Commands.{as_is};

use crate::command::SealReply;
use crate::object::{Object, SharedObject};
use crate::store::{Held, Redo, Store, allow, shared};
use b3_forest::Plan;
use std::marker::Model;
use std::sync::Arc;
use store_books::{
    Address, Content, ObjectPage, Refusal, TenantId, Totals, UploadId, UploadStatus, Usage,
};

/// A question to the store. It changes nothing.
#[derive(Clone, Copy, Debug, PartialEq, Eq)]
pub enum Question {
    Fetch {
        tenant: TenantId,
        address: Address,
    },
    Usage {
        tenant: TenantId,
    },
    List {
        tenant: TenantId,
    },
    Holds {
        tenant: TenantId,
        address: Address,
    },
    Uploads {
        tenant: TenantId,
    },
    Objects {
        tenant: TenantId,
        from: u64,
        count: u64,
    },
    Tenants,
    Totals,
    Counts,
    Redo {
        from: u64,
        count: u64,
    },
}

/// The result of an accepted command or of a question. In contracts a reply is its own model, since each field is.
#[derive(Drop)]
pub enum Reply {
    Tenant(TenantId),
    Upload(UploadId, Plan),
    Held(Held),
    Sealed(SealReply),
    Done,
    Object(SharedObject),
    Usage(Usage),
    List(Listing<(Address, u64)>),
    Length(u64),
    Uploads(Listing<UploadStatus>),
    Objects(ObjectPage),
    Tenants(Listing<Usage>),
    Totals(Totals),
    Counts(Counts),
    Redo(Redo),
}

/// The numbers of entries of the journal and of tenants, and the totals.
#[derive(Clone, Copy, Debug, PartialEq, Eq)]
pub struct Counts {
    pub entries: u64,
    pub tenants: u64,
    pub totals: Totals,
}

/// The items of a list in a reply. In contracts it is their list.
#[derive(Drop)]
pub struct Listing<T> {
    items: Vec<T>,
}

impl<T> Model for Listing<T> {
    ghost use Rattle.std.specs.Prelude.{List};

    ghost Value = { List T };

    ghost view = { λ l. l.items.items };
}

impl<T> Listing<T> {
    /// The list of these items.
    pub(crate) fn new(items: Vec<T>) -> Listing<T>
        ensures { result ≡ items.items }
    {
        Listing { items }
    }

    /// The items, in order.
    pub fn as_slice(&self) -> &[T]
        ensures { result.now ≡ self.now }
    {
        self.items.as_slice()
    }
}

impl Store {
    /// Answers a question.
    pub fn ask(&self, question: Question) -> Result<Reply, Refusal>
        ensures { Answers self.now question result }
    {
        match question {
            Question::Fetch { tenant, address } => {
                Ok(Reply::Object(SharedObject::new(self.fetch(tenant, address)?)))
            }
            Question::Usage { tenant } => Ok(Reply::Usage(self.usage(tenant)?)),
            Question::List { tenant } => Ok(Reply::List(Listing::new(self.list(tenant)?))),
            Question::Holds { tenant, address } => Ok(Reply::Length(self.holds(tenant, address)?)),
            Question::Uploads { tenant } => Ok(Reply::Uploads(Listing::new(self.uploads(tenant)?))),
            Question::Objects {
                tenant,
                from,
                count,
            } => Ok(Reply::Objects(self.objects(tenant, from, count)?)),
            Question::Tenants => Ok(Reply::Tenants(Listing::new(self.tenants()?))),
            Question::Totals => Ok(Reply::Totals(self.totals())),
            Question::Counts => Ok(Reply::Counts(self.counts())),
            Question::Redo { from, count } => Ok(Reply::Redo(self.redo(from, count)?)),
        }
    }

    /// The plan of an open upload. Refusal: S7. Time: logarithmic in the open uploads.
    pub fn plan(&self, upload: UploadId) -> Result<Plan, Refusal>
        ensures { result ≡ plan_in self.now.state upload }
    {
        match self.books.upload(upload.number()) {
            Some(begun) => Ok(begun.upload().plan()),
            None => Err(Refusal::NoUpload),
        }
    }

    /// Totals over the store. Time: constant.
    pub fn totals(&self) -> Totals
        ensures { result ≡ totals_of length length self.now.state }
    {
        self.books.totals()
    }

    /// The numbers of entries and of tenants, and the totals. Time: constant.
    pub fn counts(&self) -> Counts
        ensures { result ≡ counts_of self.now }
    {
        Counts {
            entries: self.journal().len() as u64,
            tenants: self.books.tenants(),
            totals: self.totals(),
        }
    }

    /// An object that a tenant holds. Refusals: S1, S12, S14. Time: logarithmic in the objects and in all pairs of a tenant and an object
    /// that it holds.
    pub fn fetch(&self, tenant: TenantId, address: Address) -> Result<Arc<Object>, Refusal>
        ensures reported { AnswersAs (λ object. arc_value object) (fetch_in self.now.state tenant address) result }
        ensures named { IfOk result (λ object. hash_of (arc_value object) ≡ address) }
    {
        allow(self.books.holding_refusal(tenant.number(), address))?;
        match self.books.object(address) {
            Some(object) => shared(object),
            None => unreachable!(),
        }
    }

    /// The length in bytes of an object that a tenant holds. Refusals: S1, S12. Time: logarithmic in the objects and in all pairs of a
    /// tenant and an object that it holds.
    pub fn holds(&self, tenant: TenantId, address: Address) -> Result<u64, Refusal>
        ensures { result ≡ holds_in self.now.state tenant address }
    {
        let refusal = self.books.holding_refusal(tenant.number(), address);
        allow(refusal)?;
        match self.books.object(address) {
            Some(object) => Ok(object.length()),
            None => unreachable!(),
        }
    }

    /// A tenant's use, reservation and limit. Refusal: S1. Time: constant.
    pub fn usage(&self, tenant: TenantId) -> Result<Usage, Refusal>
        ensures { result ≡ usage_in length self.now.state tenant }
    {
        self.books.usage(tenant.number())
    }

    /// Addresses and lengths of the objects that a tenant holds, in filing order. Refusals: S1, S14.
    ///
    /// Time: linear in what the tenant holds, with a look-up among the objects for each; what others hold does not matter.
    pub fn list(&self, tenant: TenantId) -> Result<Vec<(Address, u64)>, Refusal>
        ensures { AnswersAs (λ list. list.items) (list_in self.now.state tenant) result }
    {
        if tenant.number() >= self.books.tenants() {
            return Err(Refusal::NoTenant);
        }
        match self.books.list(self.alloc, tenant.number()) {
            Ok(list) => Ok(list),
            Err(_) => Err(Refusal::NoMemory),
        }
    }

    /// Those of the objects that a tenant holds whose numbers are at least `from`, and at most `count` of them, in filing order. An object
    /// has the number of the journal's entry by which it was filed. Refusals: S1, S14.
    ///
    /// Time: logarithmic in all pairs of a tenant and an object that it holds, and for each object of the page a look-up among the objects.
    pub fn objects(&self, tenant: TenantId, from: u64, count: u64) -> Result<ObjectPage, Refusal>
        ensures page { AnswersAs as_is (objects_in self.now.state tenant from count) result }
        // `page_laws` of store_books needs this.
        ensures rising { IfOk result (λ _. IsRisingFrom 0 (map (λ o. o.number) self.now.state.objects)) }
    {
        if tenant.number() >= self.books.tenants() {
            return Err(Refusal::NoTenant);
        }
        match self.books.page(self.alloc, tenant.number(), from, count) {
            Ok(page) => Ok(page),
            Err(_) => Err(Refusal::NoMemory),
        }
    }

    /// The open uploads of a tenant, by number. Refusals: S1, S14. Time: linear in all open uploads.
    pub fn uploads(&self, tenant: TenantId) -> Result<Vec<UploadStatus>, Refusal>
        ensures { AnswersAs (λ list. list.items) (uploads_in self.now.state tenant) result }
    {
        if tenant.number() >= self.books.tenants() {
            return Err(Refusal::NoTenant);
        }
        match self.books.list_uploads(self.alloc, tenant.number()) {
            Ok(list) => Ok(list),
            Err(_) => Err(Refusal::NoMemory),
        }
    }

    /// The use, reservation and limit of each tenant, by number. Refusal: S14. Time: linear in the tenants.
    pub fn tenants(&self) -> Result<Vec<Usage>, Refusal>
        ensures { AnswersAs (λ list. list.items) (Ok (tenants_in self.now.state)) result }
    {
        match self.books.usages(self.alloc) {
            Ok(list) => Ok(list),
            Err(_) => Err(Refusal::NoMemory),
        }
    }
}
