//! Accounts that pay each other, and make and lose no money.

use fbl_law::step_laws::Conserving;
use fbl_trace::{Behaviour, Member, Note, Outcome};

/// A member whose state is a balance, at first 100 for the first member, 200 for the second, and so on. It takes a payment in and,
/// if the message has hops left, pays half of the balance to the next account, with one hop fewer. A payment for which it has no
/// room goes on to the next account.
pub struct Account;

impl Behaviour for Account {
    ghost use Rattle.fbl_behaviours.specs.Accounts.{account_next, account_laws};

    type State = u64;

    type Note = Note;

    ghost next = { account_next };

    ghost laws = { account_laws };

    fn initial(me: Member, _n: u8) -> u64 {
        100 * (u64::from(me.number()) + 1)
    }

    fn step(me: Member, n: u8, state: u64, note: Note) -> Outcome {
        let next = me.after(1, n);
        let Some(balance) = state.checked_add(note.value.into()) else {
            return Outcome::with_onward(state, next, note.value, note.hops.max(1));
        };
        let half = (balance / 2).min(u32::MAX.into());
        let amount = if note.hops == 0 { 0 } else { half };
        Outcome::with_onward(balance - amount, next, amount as u32, note.hops)
    }
}

// No money is made or lost, by a step and so by a whole group.
impl Conserving for Account {
    ghost use Rattle.fbl_behaviours.specs.Accounts.{account_conserves};

    ghost mass = { λ me state. state };

    ghost weight = { λ note. note.value };

    ghost conserves = { account_conserves };
}
