//! Laws of books reduced to lengths and labels, and of their invariants.

ghost use Rattle.store_books.specs.Forgetting.{Forgets};
ghost use Rattle.store_books.specs.Pages.{AllPagesFollow};
ghost use Rattle.store_books.specs.Staying.{StaySound};

use crate::content::Content;
use store_upload::Length;

/// States that refusals and results of commands depend only on the lengths of parts and the labels of objects. It does nothing.
pub fn forgetting_laws<P: Length, O: Content>()
    ensures { Forgets P.len O.size O.address }
{}

/// States that each command that is not refused keeps sound books sound. It does nothing.
pub fn sound_laws<P: Length, O: Content>()
    ensures { StaySound P.len O.size O.address }
{}

/// States that pages follow each other. It does nothing.
pub fn page_laws<O: Content>()
    ensures { AllPagesFollow O }
{}
