//! Laws of the definitions: each is the contract of a function that does nothing, and the check of the crate proves
//! it.
//!
//! They are of causal precedence (Lamport 1978), of what a member depends on (Alvisi and Marzullo 1998), and of the
//! traces of runs in which nobody crashes.

ghost use Rattle.fbl_trace.specs.Laws.{ReceiptLaw, DependsLaw, PlacesLaw, DependsOnPlacesLaw, LawfulDeliveryLaw};

/// What precedes an added receipt: the receipt itself, what its member depended on, and what precedes its send.
#[tactic(auto, using(crate::proofs::PrecedenceLaws::precedes_receipt))]
pub fn receipt_law()
    ensures { ReceiptLaw }
{}

/// Who depends on an event after one more event: who did before, and the added event's member where the added event is
/// preceded by it.
pub fn depends_law()
    ensures { DependsLaw }
{}

/// On a well-formed trace precedence between events is precedence between the places at which they stand, and a member
/// depends on an event where it depends on the event's place.
pub fn places_law()
    ensures precedes { PlacesLaw }
    ensures depends { DependsOnPlacesLaw }
{}

/// A lawful trace with one more receipt, of the first message in flight on its channel, and with the sends that the
/// behaviour answers, is lawful, and so well formed. It holds of any states and contents.
pub fn lawful_delivery_law<S, N>()
    ensures { LawfulDeliveryLaw S N }
{}
