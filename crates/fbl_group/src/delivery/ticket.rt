//! Steps that are taken apart from the record.

ghost use Rattle.std.specs.Prelude.{◌≡◌};

use fbl_trace::{Behaviour, Outcome, Ticket};
use std::marker::PhantomData;

/// A ticket and the behaviour's step of it.
#[derive(Drop, Debug)]
pub struct Done<B: Behaviour> {
    pub(crate) ticket: Ticket<B::State, B::Note>,
    pub(crate) outcome: Outcome<B::State, B::Note>,
    behaviour: PhantomData<B>,
    ghost stepped: { outcome ≡ B.next.step ticket.to ticket.n ticket.state ticket.note },
}

impl<B: Behaviour> Done<B> {
    /// What the step was made from.
    pub fn ticket(&self) -> Ticket<B::State, B::Note>
        ensures { result ≡ self.now.ticket }
    {
        self.ticket
    }

    /// What the step answered.
    pub fn outcome(&self) -> &Outcome<B::State, B::Note>
        ensures { result.now ≡ self.now.outcome }
    {
        &self.outcome
    }
}

/// Makes the step of a ticket. It takes no lock and no memory.
pub fn run_step<B: Behaviour>(ticket: Ticket<B::State, B::Note>) -> Done<B>
    ensures ticket { result.ticket ≡ ticket }
    ensures step { result.outcome ≡ B.next.step ticket.to ticket.n ticket.state ticket.note }
{
    let outcome = B::step(ticket.to, ticket.n, ticket.state, ticket.note);
    Done {
        ticket,
        outcome,
        behaviour: PhantomData,
    }
}
