//! Filed objects in filing order, found by their addresses, and who holds which.

ghost use Rattle.std.specs.Prelude.{◌≡◌, ◌+◌, ◌-◌, ◌^◌, ◌<◌, ◌≤◌, ◌∷◌, ◌++◌, [], ℕ, List, length, map, nat_le, true, if◌then◌else◌};
ghost use Rattle.std.specs.Prelude.{None, Some, IfNone, IfOk, IfSome, IsSome, OnErr, OnOk};
ghost use Rattle.std.specs.BTreeMap.{WritesThrough, get};
ghost use Rattle.std.specs.Ordering.{nat_cmp};
ghost use Rattle.store_books.specs.declared.catalog.FiledObject.{FiledObject as ModelFiledObject};
ghost use Rattle.store_books.specs.Books.{Filed as Item, IsRisingFrom, is_held_by, max_entries, object_among};
ghost use Rattle.store_books.specs.Forgetting.{label_of};
ghost use Rattle.store_books.specs.inner.Catalog.{IsKnown};
ghost use Rattle.store_books.specs.Commands.{with_holder, with_holders, without_holder};
ghost use Rattle.store_books.specs.Pages.{page_of};
ghost use Rattle.store_books.specs.Questions.{holders_at, listed};

use crate::address::Address;
use crate::content::{Content, ObjectLabel};
use crate::index::AddressIndex;
use crate::known::Known;
use crate::page::ObjectPage;
use std::alloc::{AllocError, Global};
use std::collections::{BTreeMap, BTreeSet};
use std::marker::Model;

// A filed object, and the number of tenants that hold it.
#[derive(Drop)]
pub(crate) struct FiledObject<O: Content> {
    content: O,
    holders: u64,
}

impl<O: Content> FiledObject<O> {
    // The object.
    fn content(&self) -> &O
        ensures { result.now ≡ self.now.content }
    {
        &self.content
    }
}

// Each object is kept under the number of the entry by which it was filed. That number is kept under the object's address, and in a pair with
// each tenant that holds it. `filings` is above all these numbers.
#[derive(Drop)]
pub(crate) struct Catalog<O: Content, I: AddressIndex> {
    numbers: I,
    filed: BTreeMap<u64, FiledObject<O>>,
    filings: u64,
    held: BTreeSet<(u64, u64)>,
}

// In contracts it is the objects in filing order, and a number above those of all filings so far.
impl<O: Content, I: AddressIndex> Model for Catalog<O, I> {
    ghost use Rattle.std.specs.Map.{values_of};
    ghost use Rattle.store_books.specs.Kept.{ModelCatalog};
    ghost use Rattle.store_books.specs.inner.Catalog.{AreNumbered, ArePaired, with_addresses};

    ghost Value = { ModelCatalog O };

    ghost view = { λ c. record { objects = values_of (values_of (with_addresses O.address c.held.keys c.filed.entries)); filings = c.filings } };

    ghost invariant = { λ c. AreNumbered c.filings (with_addresses O.address c.held.keys c.filed.entries) (I.number_of c.numbers) × ArePaired c.filed.entries c.held.keys };
}

impl<O: Content, I: AddressIndex> Catalog<O, I> {
    /// An empty catalog.
    pub(crate) fn new(alloc: Global) -> Catalog<O, I>
        ensures { result ≡ record { objects = []; filings = 0 } }
    {
        Catalog {
            numbers: I::new(alloc),
            filed: BTreeMap::new(alloc),
            filings: 0,
            held: BTreeSet::new(alloc),
        }
    }

    /// The number of objects.
    pub(crate) fn len(&self) -> u64
        ensures { result ≡ length self.now.objects }
    {
        self.filed.len() as u64
    }

    /// The addresses and lengths of the objects, in filing order.
    pub(crate) fn labels(&self, alloc: Global) -> Result<Vec<ObjectLabel>, AllocError>
        ensures { IfOk result (λ labels. labels.items ≡ map (λ o. label_of O.size O.address o.content) self.now.objects) }
    {
        let mut labels = Vec::new(alloc);
        for filed in self.filed.values() {
            labels.push(ObjectLabel {
                address: filed.content.address(),
                len: filed.content.length(),
            })?;
        }
        Ok(labels)
    }

    /// The tenants that hold the object at the address, by number.
    pub(crate) fn holders_of(&self, alloc: Global, address: Address) -> Result<Vec<u64>, AllocError>
        ensures { IfOk result (λ holders. holders.items ≡ holders_at O.address self.now.objects address) }
    {
        let mut holders = Vec::new(alloc);
        let Some(number) = self.numbers.get(address) else {
            return Ok(holders);
        };
        for pair in self.held.iter() {
            let (tenant, held) = *pair;
            if held == number {
                holders.push(tenant)?;
            }
        }
        Ok(holders)
    }

    /// What is filed at the address.
    pub(crate) fn known(&self, address: Address, tenant: u64) -> Option<Known>
        ensures found { IfSome result (IsKnown O.size O.address self.now.objects address tenant) }
        ensures absent { IfNone result (object_among O.address self.now.objects address ≡ None) }
    {
        let Some(number) = self.numbers.get(address) else {
            return None;
        };
        let Some(filed) = self.filed.get(&number) else {
            unreachable!();
        };
        Some(Known {
            size: filed.content.length(),
            is_holder: self.held.contains(&(tenant, number)),
            is_alone: filed.holders <= 1,
        })
    }

    /// The object at the address.
    pub(crate) fn content(&self, address: Address) -> Option<&O>
        ensures found { IfSome result (λ content. (o : Item O) × (object_among O.address self.now.objects address ≡ Some o) × (content.now ≡ o.content)) }
        ensures none { IfNone result (object_among O.address self.now.objects address ≡ None) }
    {
        let Some(number) = self.numbers.get(address) else {
            return None;
        };
        match self.filed.get(&number) {
            Some(filed) => Some(filed.content()),
            None => unreachable!(),
        }
    }

    /// The addresses and lengths of the objects that a tenant holds.
    pub(crate) fn list(&self, alloc: Global, tenant: u64) -> Result<Vec<(Address, u64)>, AllocError>
        ensures { IfOk result (λ list. list.items ≡ listed O.size O.address tenant self.now.objects) }
    {
        let objects = &self.filed;
        let mut list = Vec::new(alloc);
        for pair in self.held.range((tenant, 0)..(tenant, self.filings)) {
            let (_, number) = *pair;
            let Some(filed) = objects.get(&number) else {
                unreachable!();
            };
            list.push((filed.content.address(), filed.content.length()))?;
        }
        Ok(list)
    }

    /// Those of the objects that a tenant holds whose numbers are at least `from`, and at most `count` of them.
    pub(crate) fn page(
        &self,
        alloc: Global,
        tenant: u64,
        from: u64,
        count: u64,
    ) -> Result<ObjectPage, AllocError>
        ensures page { IfOk result (λ page. page ≡ page_of O.size O.address tenant from count self.now.objects) }
        ensures rising { IsRisingFrom 0 (map (λ o. o.number) self.now.objects) }
    {
        let filed = &self.filed;
        let mut objects = Vec::new(alloc);
        let mut next = from;
        let first = from.min(self.filings);
        for pair in self
            .held
            .range((tenant, first)..(tenant, self.filings))
            .take(count as usize)
        {
            let (_, number) = *pair;
            let Some(found) = filed.get(&number) else {
                unreachable!();
            };
            objects.push((found.content.address(), found.content.length()))?;
            next = number + 1;
        }
        Ok(ObjectPage::new(objects, next))
    }

    /// Files an object with one holder as the last one, under this number. A failure leaves everything unchanged.
    pub(crate) fn file_last(
        &mut self,
        content: O,
        tenant: u64,
        number: u64,
    ) -> Result<(), AllocError>
        requires absent { object_among O.address self.old.objects (O.address content) ≡ None }
        requires later { self.old.filings ≤ number }
        requires room { number < max_entries }
        ensures filed { OnOk result (self.new ≡ record { objects = self.old.objects ++ record { content = content; holders = tenant ∷ []; number = number } ∷ []; filings = number + 1 }) }
        ensures unchanged { OnErr result (self.new ≡ self.old) }
    {
        let address = content.address();
        self.numbers.insert(address, number)?;
        let Ok(_new) = self.held.insert((tenant, number)) else {
            self.numbers.remove(address);
            return Err(AllocError);
        };
        let filed = FiledObject {
            content,
            holders: 1,
        };
        let Ok(_none) = self.filed.insert(number, filed) else {
            let _undone = self.held.remove(&(tenant, number));
            self.numbers.remove(address);
            return Err(AllocError);
        };
        self.filings = number + 1;
        Ok(())
    }

    /// Adds a holder to the object at the address.
    pub(crate) fn add_holder(&mut self, address: Address, tenant: u64) -> Result<(), AllocError>
        requires { IsSome (object_among O.address self.old.objects address) }
        ensures objects { OnOk result ((o : Item O) → object_among O.address self.old.objects address ≡ Some o
            → self.new ≡ record self.old { objects = with_holders O.address self.old.objects address o (with_holder tenant o.holders) }) }
        ensures unchanged { OnErr result (self.new ≡ self.old) }
    {
        let Some(number) = self.numbers.get(address) else {
            unreachable!();
        };
        let Ok(is_new) = self.held.insert((tenant, number)) else {
            return Err(AllocError);
        };
        if is_new {
            // For the proof alone: an object has no more holders than there are pairs.
            let _pairs = self.held.len();
            count_one_more(&mut self.filed, number);
        }
        Ok(())
    }

    /// Removes a holder from the object at the address. Returns the object if it has no other holder.
    pub(crate) fn drop_holder(&mut self, address: Address, tenant: u64, is_alone: bool) -> Option<O>
        requires found { IsSome (object_among O.address self.old.objects address) }
        requires held { (o : Item O) → object_among O.address self.old.objects address ≡ Some o → (is_held_by tenant o ≡ true) × (is_alone ≡ nat_le (length o.holders) 1) }
        ensures left { (o : Item O) → object_among O.address self.old.objects address ≡ Some o
            → self.new ≡ record self.old { objects = with_holders O.address self.old.objects address o (without_holder tenant o.holders) } }
        ensures freed { (o : Item O) → object_among O.address self.old.objects address ≡ Some o → result ≡ (if is_alone then Some o.content else None) }
    {
        let Some(number) = self.numbers.get(address) else {
            unreachable!();
        };
        let _was = self.held.remove(&(tenant, number));
        if is_alone {
            self.numbers.remove(address);
            let Some(filed) = self.filed.remove(&number) else {
                unreachable!();
            };
            let FiledObject { content, .. } = filed;
            return Some(content);
        }
        count_one_less(&mut self.filed, number);
        None
    }
}

// Counts one more holder of the object `number`.
fn count_one_more<O: Content>(filed: &mut BTreeMap<u64, FiledObject<O>>, number: u64)
    requires there { IsSome (get nat_cmp filed.old number) }
    requires few { IfSome (get nat_cmp filed.old number) (λ f. f.holders + 1 < 2 ^ 64) }
    ensures { (f : ModelFiledObject O) → get nat_cmp filed.old number ≡ Some f
        → WritesThrough nat_cmp (nat_cmp number) filed.old (record f { holders = f.holders + 1 }) filed.new }
{
    match filed.get_mut(&number) {
        Some(found) => found.holders += 1,
        None => unreachable!(),
    }
}

// Counts one holder less of the object `number`.
fn count_one_less<O: Content>(filed: &mut BTreeMap<u64, FiledObject<O>>, number: u64)
    requires there { IsSome (get nat_cmp filed.old number) }
    requires some { IfSome (get nat_cmp filed.old number) (λ f. 0 < f.holders) }
    ensures { (f : ModelFiledObject O) → get nat_cmp filed.old number ≡ Some f
        → WritesThrough nat_cmp (nat_cmp number) filed.old (record f { holders = f.holders - 1 }) filed.new }
{
    match filed.get_mut(&number) {
        Some(found) => found.holders -= 1,
        None => unreachable!(),
    }
}
