//! What a client may rely on.

ghost use Rattle.store_engines.specs.ClientLaws.{BegunIsOpen, EachWasAccepted, NumbersRise, SealedIsHeld, SealsWhatWasPut, StaysOpen, StaysPut};

/// An upload stays open, with its tenant, its plan and what it holds, until a call seals or aborts it, from its begin on; so what a client put
/// stays where it put it. No two uploads have one number. The address that a seal answers is the hash of what the upload holds; and what was sealed can be fetched, byte for
/// byte, until a call forgets it for its tenant. The laws are about each call that a shared store accepted, of whichever client; the function
/// does nothing.
pub fn client_laws()
    ensures each { EachWasAccepted }
    ensures begun { BegunIsOpen }
    ensures stays { StaysOpen }
    ensures numbers { NumbersRise }
    ensures put { StaysPut }
    ensures sealed { SealsWhatWasPut }
    ensures held { SealedIsHeld }
{}
