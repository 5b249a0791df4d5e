//! What a law of one step gives of a whole group, whatever was delivered, struck and recovered. A behaviour says its law by an
//! `impl` of one of these traits, and the function of the same law gives that of every sound group of it.

ghost use Rattle.fbl_law.specs.Groups.{GroupRecord, IsSound};
ghost use Rattle.fbl_law.specs.StepLaws.{HoldsOf, WeighsNoMore, WeighsNoLess, WeighsTheSame};

use fbl_trace::Behaviour;

/// A behaviour whose steps keep a weight, from any state and at any note: what the new state and the sends weigh, the old
/// state and the note did.
///
/// `mass` is what a member's state weighs, `weight` what a note weighs. `conserves` shows that a step keeps the sum.
pub trait Conserving: Behaviour {
    ghost use Rattle.std.specs.Prelude.{ℕ};
    ghost use Rattle.fbl_trace.specs.Configs.{MembersAllowed};
    ghost use Rattle.fbl_law.specs.StepLaws.{AnyState, AnyNote, StepConserves};

    ghost mass: { ℕ → Self.State → ℕ };

    ghost weight: { Self.Note → ℕ };

    ghost conserves: { (n : ℕ) → MembersAllowed n → StepConserves Self.next n AnyState AnyNote mass weight };
}

/// A behaviour with predicates that each step keeps.
///
/// `states` is of the group's parameters, a member and its state; `notes` is of the parameters, a message's sender, its
/// receiver and its note. They hold of the first states and of the starts, whatever parameters a group has, as `first` shows;
/// `keeps` shows that each step keeps them.
pub trait Keeping: Behaviour {
    ghost use Rattle.std.specs.Prelude.{ℕ};
    ghost use Rattle.fbl_trace.specs.Configs.{Settings, IsConfig};
    ghost use Rattle.fbl_law.specs.StepLaws.{HoldsFirst, StepKeeps};

    ghost states: { Settings Self.Note → ℕ → Self.State → Type 0 };

    ghost notes: { Settings Self.Note → ℕ → ℕ → Self.Note → Type 0 };

    ghost first: { (c : Settings Self.Note) → IsConfig Self.next.allowed c → HoldsFirst Self.next c (states c) (notes c) };

    ghost keeps: { (c : Settings Self.Note) → IsConfig Self.next.allowed c → StepKeeps Self.next c.members (states c) (notes c) };
}

/// A behaviour with predicates that each step keeps, and with a weight, of which the traits below say what becomes in a step
/// that starts from the predicates. Where both hold, each step keeps the weight, and so does the group.
///
/// `mass` is what a member's state weighs, `weight` what a note weighs, both by the group's parameters.
pub trait Weighing: Keeping {
    ghost use Rattle.std.specs.Prelude.{ℕ};
    ghost use Rattle.fbl_trace.specs.Configs.{Settings};

    ghost mass: { Settings Self.Note → ℕ → Self.State → ℕ };

    ghost weight: { Settings Self.Note → Self.Note → ℕ };
}

/// No step makes weight.
pub trait MakingNone: Weighing {
    ghost use Rattle.fbl_trace.specs.Configs.{Settings, IsConfig};
    ghost use Rattle.fbl_law.specs.StepLaws.{StepMakesNone};

    ghost makes_none: { (c : Settings Self.Note) → IsConfig Self.next.allowed c
        → StepMakesNone Self.next c.members (Self.states c) (Self.notes c) (Self.mass c)
        (Self.weight c) };
}

/// No step loses weight.
pub trait LosingNone: Weighing {
    ghost use Rattle.fbl_trace.specs.Configs.{Settings, IsConfig};
    ghost use Rattle.fbl_law.specs.StepLaws.{StepLosesNone};

    ghost loses_none: { (c : Settings Self.Note) → IsConfig Self.next.allowed c
        → StepLosesNone Self.next c.members (Self.states c) (Self.notes c) (Self.mass c)
        (Self.weight c) };
}

/// Where each step keeps the weight, every sound group weighs what it began with, its first states and its starts.
pub fn conserved_law<B: Conserving>()
    ensures { (r : GroupRecord B.State B.Note) → IsSound B.next r → WeighsTheSame B.next B.mass B.weight r }
{}

/// What each step keeps holds of every sound group: of each state and each checkpoint's, of each message in flight and each
/// send of the trace.
pub fn kept_law<B: Keeping>()
    ensures { (r : GroupRecord B.State B.Note) → IsSound B.next r → HoldsOf r (B.states r.config) (B.notes r.config) }
{}

/// Where no step from the predicates makes weight, every sound group weighs no more than it began with, whoever is down.
pub fn none_made_law<B: MakingNone>()
    ensures { (r : GroupRecord B.State B.Note) → IsSound B.next r → WeighsNoMore B.next (B.mass r.config) (B.weight r.config) r }
{}

/// Where no step from the predicates loses weight, every sound group weighs no less than it began with where nobody is down.
pub fn none_lost_law<B: LosingNone>()
    ensures { (r : GroupRecord B.State B.Note) → IsSound B.next r → WeighsNoLess B.next (B.mass r.config) (B.weight r.config) r }
{}
