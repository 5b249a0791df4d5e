//! One member's volatile record: how it receives a message, and how it replays a receipt.

ghost use Rattle.std.specs.Prelude.{◌≡◌, ◌+◌, ◌<◌, ◌≤◌, ◌==◌, ◌&&◌, nat_lt, false, length, OnOk, OnErr, IfOk};
ghost use Rattle.fbl_table.specs.Tables.{is_held, piggybacked};
ghost use Rattle.fbl_member.specs.Laws.{IsKept};
ghost use Rattle.fbl_member.specs.Members.{fresh, blank, last_from, next_determinant, received_by, replayed_by, messages_from, logged_note, logged_beyond};

use crate::buffers::Buffers;
use crate::wire::Wire;
use fbl_table::Table;
use fbl_trace::{Behaviour, Config, Content, Determinant, Member, Note, Outcome};
use std::alloc::{AllocError, Global};
use std::marker::Model;

/// What a member keeps in memory: its state, how many receipts it has had, the number of the last message from each
/// member, its sends in order, and its table.
///
/// Where a call that takes memory answers `Err`, there was too little of it, and what the call was lent is as it was.
#[derive(Drop)]
pub struct MemberRec<S = u64, N = Note> {
    state: S,
    received: u32,
    last: [u32; 16],
    log: Vec<(Member, N)>,
    table: Table,
}

impl<S, N> Model for MemberRec<S, N> {
    ghost use Rattle.fbl_member.specs.Members.{MemberRecord};

    ghost Value = { MemberRecord S N };

    ghost use Rattle.std.specs.Coded.{codes};
    ghost use Rattle.fbl_table.specs.contracts.entry.Entry as entry;

    ghost coded = { Prim.hlevel (codes, S.code, N.code, entry.the_row.coded) };

    ghost use Rattle.std.specs.Prelude.{◌≡◌, ◌≤◌, length};
    ghost use Rattle.fbl_trace.specs.Fold.{numbered};

    ghost view = { λ m. record {
      state = m.state;
      received = m.received;
      last = m.last;
      log = numbered 0 m.log.items;
      table = m.table;
    } };

    ghost invariant = { λ m. (length m.last ≡ 16) × (m.received ≤ 8192) × (length m.log.items ≤ 8192) };
}

impl<S: Copy, N: Content> MemberRec<S, N> {
    /// A member in this state that has received nothing and sent its starts, in their order, with the numbers 1, 2, and so
    /// on. `Err` comes only where there is no memory for the log.
    pub fn fresh(
        alloc: Global,
        config: &Config<N>,
        initial: S,
        me: Member,
    ) -> Result<MemberRec<S, N>, AllocError>
        ensures { IfOk result (λ m. m ≡ fresh initial me config.now.starts) }
    {
        // the configuration's rules say that there are few starts: the log is not too long
        let _members = config.members();
        let mut log = Vec::new(alloc);
        for start in config.starts() {
            if start.from == me {
                log.push((start.to, start.note))?;
            }
        }
        Ok(MemberRec {
            state: initial,
            received: 0,
            last: [0; 16],
            log,
            table: Table::for_limit(alloc, config.f()),
        })
    }

    /// A member in this state that has received nothing and sent nothing. `f` is how many members of its group may be lost at once:
    /// the member's table finds fast what at most that many are known to hold. It changes no answer. No memory is
    /// taken.
    pub fn blank(alloc: Global, f: u8, initial: S) -> MemberRec<S, N>
        ensures { result ≡ blank initial }
    {
        MemberRec {
            state: initial,
            received: 0,
            last: [0; 16],
            log: Vec::new(alloc),
            table: Table::for_limit(alloc, f),
        }
    }

    /// An equal record: state, counts, log and table. `Err` comes for lack of memory, and the record is unchanged then.
    pub fn copy(&self) -> Result<MemberRec<S, N>, AllocError>
        ensures { IfOk result (λ m. m ≡ self.now) }
    {
        self.copy_with(self.table.copy()?)
    }

    /// A record with this table, and equal to this one in state, counts and log. `Err` comes for lack of memory, and the
    /// record is unchanged then.
    pub fn copy_with(&self, table: Table) -> Result<MemberRec<S, N>, AllocError>
        ensures { IfOk result (λ m. m ≡ record self.now { table = table }) }
    {
        let log = Vec::from_slice(*self.log.allocator(), self.log.as_slice())?;
        Ok(MemberRec {
            state: self.state,
            received: self.received,
            last: self.last,
            log,
            table,
        })
    }

    /// Takes the message in, and answers those that the step sends, in their order. `n` is the group's size, and `f`
    /// how many of its members may be lost at once.
    ///
    /// First the table learns what the message carried, then it notes the receipt's own determinant. Then the member
    /// takes the new state, and each send gets the next number and goes to the log. What is answered carries the
    /// entries that at most `f` members are known to hold by the table as it then is. All memory is taken before the
    /// first change: after `Err` the member is unchanged.
    ///
    /// `n` is 2 to 16, and `me` is below it. The message is to `me`, and its number is greater than that of the last one from
    /// its sender. Neither the table nor the message has the receipt's own determinant yet. `outcome` is the behaviour's
    /// step at the member's state and the message's content. The member has had fewer than 8192 receipts, and its sends are
    /// at most 8192 with those of the step.
    pub fn receive<B: Behaviour<State = S, Note = N>>(
        &mut self,
        me: Member,
        n: u8,
        f: u8,
        wire: &Wire<N>,
        outcome: &Outcome<S, N>,
    ) -> Result<Vec<Wire<N>>, AllocError>
        requires least { 2 ≤ n }
        requires most { n ≤ 16 }
        requires member { me < n }
        requires to_me { wire.now.to ≡ me }
        requires newer { last_from self.old wire.now.from < wire.now.ssn }
        requires not_held { is_held self.old.table (next_determinant me self.old wire.now.from wire.now.ssn) ≡ false }
        requires not_carried { is_held wire.now.carried (next_determinant me self.old wire.now.from wire.now.ssn) ≡ false }
        requires step { outcome.now ≡ B.next.step me n self.old.state wire.now.note }
        requires receipts { self.old.received < 8192 }
        requires sends { length self.old.log + length outcome.now.sends.items ≤ 8192 }
        ensures received { OnOk result (self.new ≡ received_by me self.old wire.now outcome.now) }
        ensures sent { IfOk result
            (λ wires. wires.items
            ≡ messages_from me (length self.old.log)
            (piggybacked f self.new.table) outcome.now.sends.items) }
        ensures unchanged { OnErr result (self.new ≡ self.old) }
    {
        let before = self.sent();
        let determinant = self.next_determinant(me, wire);
        let sends = outcome.sends.as_slice();
        let carried = wire.carried();
        let most = self.table.room_to_piggyback(f, carried);
        let buffers = Buffers::for_messages(*self.log.allocator(), sends.len(), most)?;
        self.log.reserve(sends.len())?;

        self.table.learn_and_note(me, carried, determinant)?;
        self.state = outcome.state;
        self.received += 1;
        self.last[wire.from().number() as usize] = wire.ssn();
        self.log.extend_from_slice(sends).unwrap();
        Ok(buffers.into_wires(me, before, sends, &self.table, f))
    }

    /// The determinant of the member's next receipt, if it is of this message.
    fn next_determinant(&self, me: Member, wire: &Wire<N>) -> Determinant
        requires { self.now.received < 8192 }
        ensures { result ≡ next_determinant me self.now wire.now.from wire.now.ssn }
    {
        Determinant {
            from: wire.from(),
            ssn: wire.ssn(),
            to: me,
            rsn: self.received + 1,
        }
    }

    /// Takes the message of a receipt in again, by the receipt's determinant and the message's content: the step's
    /// sends go to the log, and nothing is sent. The table stays as it is. After `Err` the member is unchanged.
    ///
    /// `n` is 2 to 16, and `me` is below it. The determinant is that of the member's next receipt. The member has had fewer
    /// than 8192 receipts, and its sends are at most 8192 with those of the step.
    pub fn replay_one<B: Behaviour<State = S, Note = N>>(
        &mut self,
        me: Member,
        n: u8,
        determinant: &Determinant,
        note: N,
    ) -> Result<(), AllocError>
        requires least { 2 ≤ n }
        requires most { n ≤ 16 }
        requires member { me < n }
        requires to_me { determinant.now.to ≡ me }
        requires next { determinant.now.rsn ≡ self.old.received + 1 }
        requires receipts { self.old.received < 8192 }
        requires sends { length self.old.log + length (B.next.step me n self.old.state note).sends.items ≤ 8192 }
        ensures replayed { OnOk result (self.new ≡ replayed_by B.next me n self.old determinant.now note) }
        ensures unchanged { OnErr result (self.new ≡ self.old) }
    {
        let outcome = B::step(me, n, self.state, note);
        self.log.extend_from_slice(outcome.sends.as_slice())?;
        self.state = outcome.state;
        self.received += 1;
        self.last[determinant.from.number() as usize] = determinant.ssn;
        Ok(())
    }

    /// Puts this table in the place of the member's.
    pub fn set_table(&mut self, table: Table)
        ensures { self.new ≡ record self.old { table = table } }
    {
        self.table = table;
    }

    /// The member's table.
    pub fn table(&self) -> &Table
        ensures { result.now ≡ self.now.table }
    {
        &self.table
    }

    /// The content of the message sent under this number, if there is one. Numbers count from 1.
    pub fn log_note(&self, ssn: u32) -> Option<N>
        ensures { result ≡ logged_note self.now.log ssn }
    {
        let log = self.log.as_slice();
        if ssn == 0 {
            return None;
        }
        let place = ssn as usize - 1;
        if place < log.len() {
            Some(log[place].1)
        } else {
            None
        }
    }

    /// The messages to a member with numbers beyond this one, in order, each with its number. `Err` comes only where
    /// there is no memory for the list.
    pub fn unsent_beyond(&self, to: Member, ssn: u32) -> Result<Vec<(u32, N)>, AllocError>
        ensures { IfOk result (λ v. v.items ≡ logged_beyond self.now.log to ssn) }
    {
        let mut beyond = Vec::new(*self.log.allocator());
        // they are numbered from 1: of the first `ssn` none is beyond it
        for place in ssn as usize..self.log.len() {
            let send = self.log[place];
            let number = place as u32 + 1;
            if is_beyond(send.0, number, to, ssn) {
                beyond.push((number, send.1))?;
            }
        }
        Ok(beyond)
    }

    /// The state.
    pub fn state(&self) -> S
        ensures { result ≡ self.now.state }
    {
        self.state
    }

    /// The state, lent.
    pub fn state_ref(&self) -> &S
        ensures { result.now ≡ self.now.state }
    {
        &self.state
    }

    /// How many receipts the member has had, at most 8192.
    pub fn received(&self) -> u32
        ensures value { result ≡ self.now.received }
        ensures kept { IsKept self.now }
    {
        self.received
    }

    /// How many messages the member has sent, at most 8192.
    pub fn sent(&self) -> u32
        ensures value { result ≡ length self.now.log }
        ensures kept { IsKept self.now }
    {
        self.log.len() as u32
    }

    /// The number of the last message received from the member, 0 if there was none.
    pub fn last_from(&self, from: Member) -> u32
        ensures { result ≡ last_from self.now from }
    {
        self.last[from.number() as usize]
    }
}

/// Whether a send to this member with this number is one to `to` beyond `ssn`.
fn is_beyond(receiver: Member, number: u32, to: Member, ssn: u32) -> bool
    ensures { result ≡ ((receiver == to) && nat_lt ssn number) }
{
    receiver == to && ssn < number
}
