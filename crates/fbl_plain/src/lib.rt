//! Laws of several members and of what is in flight between them. They are proved of plain networks, in which nobody is struck, and
//! hold of every group.
#![tactic(auto)]

ghost use Rattle.fbl_law.specs.Groups.{GroupRecord, IsSound};
ghost use Rattle.fbl_plain.specs.Plain.{EachLooksPlain, IsUpheld};

use fbl_trace::Behaviour;

/// A behaviour with a law of its plain networks: it holds of each at first, and each delivery keeps it.
///
/// `law` is of the group's parameters and a plain network. `law_first` and `law_kept` show it.
pub trait Upholding: Behaviour {
    ghost use Rattle.fbl_trace.specs.Configs.{Settings, IsConfig};
    ghost use Rattle.fbl_plain.specs.Plain.{Network, HoldsAtFirst, DeliveryKeeps};

    ghost law: { Settings Self.Note → Network Self.State Self.Note → Type 0 };

    ghost law_first: { (c : Settings Self.Note) → IsConfig Self.next.allowed c → HoldsAtFirst Self.next c (law c) };

    ghost law_kept: { (c : Settings Self.Note) → IsConfig Self.next.allowed c → DeliveryKeeps Self.next c.members (law c) };
}

/// The receipts of a sound group's trace, delivered in a plain network in their order, lead to one with the states of the members that
/// are up and the same in flight between these; where nobody is down, to the group's own states and notes in flight.
pub fn plain_law<S, N>()
    ensures { EachLooksPlain S N }
{}

/// So a law of plain networks holds of every sound group.
pub fn upheld_law<B: Upholding>()
    ensures { (r : GroupRecord B.State B.Note) → IsSound B.next r → IsUpheld r (B.law r.config) }
{}
