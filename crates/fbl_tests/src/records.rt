//! One member's record: what it takes in, replays and copies.

ghost use Rattle.std.specs.Prelude.{◌<◌};

use crate::members::first_receipt;
use fbl_member::{Carried, MemberRec, Wire};
use fbl_table::Entry;
use fbl_trace::{Behaviour, Config, Determinant, Member, MemberSet, Note, Relay, Start};
use std::alloc::{AllocError, Global};

/// Delivers a message that carries nothing to a member of three, where that is the member's next receipt.
fn deliver(
    alloc: Global,
    member_record: &mut MemberRec,
    me: Member,
    determinant: Determinant,
    note: Note,
) -> Result<Vec<Wire>, AllocError>
    requires { me < 3 }
{
    let outcome = Relay::step(me, 3, member_record.state(), note);
    let wire = Wire::new(
        determinant.from,
        me,
        determinant.ssn,
        note,
        Carried::none(alloc),
    );
    if member_record.received() < 8192
        && determinant.to == me
        && determinant.rsn == member_record.received() + 1
        && member_record.last_from(determinant.from) < determinant.ssn
        && !member_record.table().holds(&determinant)
        && member_record.sent() as usize + outcome.sends.len() <= 8192
    {
        return member_record.receive::<Relay>(me, 3, 1, &wire, &outcome);
    }
    Ok(Vec::new(alloc))
}

/// Replays one receipt of a member of three, where it is the member's next.
fn replay(
    member_record: &mut MemberRec,
    me: Member,
    determinant: &Determinant,
    note: Note,
) -> Result<(), AllocError>
    requires { me < 3 }
{
    let outcome = Relay::step(me, 3, member_record.state(), note);
    if member_record.received() < 8192
        && determinant.to == me
        && determinant.rsn == member_record.received() + 1
        && member_record.sent() as usize + outcome.sends.len() <= 8192
    {
        return member_record.replay_one::<Relay>(me, 3, determinant, note);
    }
    Ok(())
}

/// Whether the record is that of a member that received the other's first message, with so many entries in its table.
fn has_received(member_record: &MemberRec, from: Member, held: usize) -> bool {
    (
        member_record.state(),
        member_record.received(),
        member_record.sent(),
    ) == (5, 1, 1)
        && member_record.last_from(from) == 1
        && member_record.table().len() == held
}

/// Whether this is one message, the sender's first, with this receiver, this note and this entry.
fn is_first_message(wires: &[Wire], from: Member, to: Member, note: Note, carried: Entry) -> bool {
    match wires {
        [wire] => {
            (wire.from(), wire.to(), wire.ssn(), wire.note()) == (from, to, 1, note)
                && wire.carried() == [carried].as_slice()
        }
        _ => false,
    }
}

/// Whether these are the messages that the member sent to another with numbers beyond this one.
fn has_logged(
    member_record: &MemberRec,
    to: Member,
    ssn: u32,
    expected: &[(u32, Note)],
) -> Result<bool, AllocError> {
    let beyond = member_record.unsent_beyond(to, ssn)?;
    Ok(beyond.as_slice() == expected)
}

/// What the first of three members sends the second, which passes it on to the third.
const NOTE: Note = Note { value: 5, hops: 2 };

/// What the second member sends then.
const PASSED_ON: Note = Note { value: 5, hops: 1 };

/// A fresh member of a group of three, in which the first one sends the second a message.
fn fresh(alloc: Global, me: Member) -> Result<MemberRec, AllocError> {
    let start = Start {
        from: Member::at(0),
        to: Member::at(1),
        note: NOTE,
    };
    let config = Config::new(alloc, 3, 1, 8192, &[start])
        .ok()
        .ok_or(AllocError)?;
    MemberRec::fresh(alloc, &config, 0, me)
}

/// Whether its sender has the message in its log, as the last one.
fn is_logged_by(sender: &MemberRec) -> Result<bool, AllocError> {
    let to = Member::at(1);
    let is_first = has_logged(sender, to, 0, &[(1, NOTE)])?;
    let is_last = has_logged(sender, to, 1, &[])?;
    Ok(sender.sent() == 1 && sender.log_note(2) == None && is_first && is_last)
}

/// Whether its receiver takes the message in, and sends it on with the determinant of its receipt.
fn is_sent_on_by(alloc: Global, receiver: &mut MemberRec) -> Result<bool, AllocError> {
    let (from, me, to) = (Member::at(0), Member::at(1), Member::at(2));
    let wires = deliver(alloc, receiver, me, first_receipt(from, me), NOTE)?;
    let carried = Entry {
        det: first_receipt(from, me),
        known: MemberSet::empty().with(me),
    };
    let is_sent_on = is_first_message(&wires, me, to, PASSED_ON, carried);
    Ok(is_sent_on)
}

/// Whether a copy of its receiver's record has the message.
fn is_copied_by(receiver: &MemberRec) -> Result<bool, AllocError> {
    let copy = receiver.copy()?;
    Ok(has_received(&copy, Member::at(0), 1))
}

/// Whether its receiver replays the receipt, and sends on what it sent.
fn is_replayed_by(receiver: &mut MemberRec) -> Result<bool, AllocError> {
    let (from, me, to) = (Member::at(0), Member::at(1), Member::at(2));
    replay(receiver, me, &first_receipt(from, me), NOTE)?;
    let is_sent_on = has_logged(receiver, to, 0, &[(1, PASSED_ON)])?;
    Ok(is_sent_on && has_received(receiver, from, 0))
}

/// What becomes of the message: its sender has it in its log, its receiver takes it in, or replays it.
#[derive(Clone, Copy, Debug)]
enum Message {
    Logged,
    TakenIn,
    Replayed,
}

impl Message {
    /// Whether it is as expected. `Err` is to come only where memory is refused.
    fn is_worked(self, alloc: Global) -> Result<bool, AllocError> {
        match self {
            Message::Logged => Message::is_logged(alloc),
            Message::TakenIn => Message::is_taken_in(alloc),
            Message::Replayed => Message::is_replayed(alloc),
        }
    }

    fn is_logged(alloc: Global) -> Result<bool, AllocError> {
        is_logged_by(&fresh(alloc, Member::at(0))?)
    }

    fn is_taken_in(alloc: Global) -> Result<bool, AllocError> {
        let mut receiver = fresh(alloc, Member::at(1))?;
        let is_sent_on = is_sent_on_by(alloc, &mut receiver)?;
        Ok(is_copied_by(&receiver)? && is_sent_on)
    }

    fn is_replayed(alloc: Global) -> Result<bool, AllocError> {
        let mut receiver = fresh(alloc, Member::at(1))?;
        is_replayed_by(&mut receiver)
    }
}

const MESSAGES: &[Message] = &[Message::Logged, Message::TakenIn, Message::Replayed];

#[test]
fn a_message_is_logged_taken_in_and_replayed(rt: HostRuntime) {
    for message in MESSAGES {
        assert!(rt;
            message.is_worked(rt.alloc()).unwrap_or(false),
            "{message:?}"
        );
    }
}

/// It holds where any one request for memory is refused, too. The gate refuses each in turn.
#[test]
fn without_memory(rt: HostRuntime) {
    for message in MESSAGES {
        assert!(rt;
            message.is_worked(rt.alloc()).unwrap_or(true),
            "{message:?}"
        );
    }
}
