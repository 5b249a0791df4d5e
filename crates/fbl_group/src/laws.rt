//! The laws of strikes and deliveries, in the words of the calls. Each is the contract of a function that does nothing.

ghost use Rattle.fbl_group.specs.Laws.{SomeDeliveryIsOpen, StrikesAreOne};

mod step_laws;

/// Strikes in several calls do what one strike of all the members does, and this one is allowed where those were.
pub fn strikes_law<S, N>()
    ensures { StrikesAreOne S N }
{}

/// While nobody is down and a message is in flight, some delivery is refused for nothing but want of room in the trace or of
/// memory.
pub fn delivery_law<S, N>()
    ensures { SomeDeliveryIsOpen S N }
{}
