//! What the laws of a behaviour's step say of a group. Each of these calls does nothing but promise.

ghost use Rattle.fbl_law.specs.StepLaws.{HoldsOf, WeighsNoMore, WeighsNoLess, WeighsTheSame};
ghost use Rattle.fbl_plain.specs.Plain.{IsUpheld};

use crate::group::Group;
use fbl_law::step_laws::{
    Conserving, Keeping, LosingNone, MakingNone, conserved_law, kept_law, none_lost_law,
    none_made_law,
};
use fbl_plain::{Upholding, upheld_law};

impl<B: Conserving> Group<B> {
    /// The states and the messages in flight weigh what the first states and the starts do where nobody is down, and those of the
    /// members that are up no more whoever is down.
    pub fn conserved(&self)
        ensures { WeighsTheSame B.next B.mass B.weight self.now }
    {
        self.recoverable();
        conserved_law::<B>();
    }
}

impl<B: Keeping> Group<B> {
    /// The predicates hold of each state and each checkpoint's, of each message in flight and each send of the trace.
    pub fn kept(&self)
        ensures { HoldsOf self.now (B.states self.now.config) (B.notes self.now.config) }
    {
        self.recoverable();
        kept_law::<B>();
    }
}

impl<B: MakingNone> Group<B> {
    /// The states of the members that are up and the messages in flight weigh no more than the first states and the starts.
    pub fn none_made(&self)
        ensures { WeighsNoMore B.next (B.mass self.now.config) (B.weight self.now.config) self.now }
    {
        self.recoverable();
        none_made_law::<B>();
    }
}

impl<B: LosingNone> Group<B> {
    /// The states and the messages in flight weigh no less than the first states and the starts where nobody is down.
    pub fn none_lost(&self)
        ensures { WeighsNoLess B.next (B.mass self.now.config) (B.weight self.now.config) self.now }
    {
        self.recoverable();
        none_lost_law::<B>();
    }
}

impl<B: Upholding> Group<B> {
    /// The law of plain networks holds of the states and of what is in flight where nobody is down, and whoever is down of a plain
    /// group that has the same survivors, with the same in flight between them.
    pub fn upheld(&self)
        ensures { IsUpheld self.now (B.law self.now.config) }
    {
        self.recoverable();
        upheld_law::<B>();
    }
}
