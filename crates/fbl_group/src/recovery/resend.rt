//! Messages that are sent again: those of the members that were down, and those that these have not received.

ghost use Rattle.std.specs.Prelude.{◌≡◌, ℕ, ◌<◌, [], length, map, slice_index_or, vec_len, IfOk, IfSome};
ghost use Rattle.std.specs.VecDeque.{deque_items};
ghost use Rattle.fbl_table.specs.Tables.{piggybacked};
ghost use Rattle.fbl_law.specs.Groups.{HasChannels};
ghost use Rattle.fbl_law.specs.GroupSteps.{working, resent, sent_again};
ghost use Rattle.fbl_channels.specs.Channels.{rows};
ghost use Rattle.fbl_group.specs.Strikes.{AreSentAgain};

use crate::group::Group;
use fbl_channels::{Channel, Channels, has_either};
use fbl_member::{Carried, MemberRec, Wire};
use fbl_table::Table;
use fbl_trace::{Behaviour, Member};
use std::alloc::{AllocError, Global};
use std::collections::VecDeque;

impl<B: Behaviour> Group<B> {
    /// The channels made again: on each with an end that is down what its sender sends again, and nothing on the others.
    pub(crate) fn resend(
        &self,
        rebuilt: &[MemberRec<B::State, B::Note>],
    ) -> Result<Channels<B::Note>, AllocError>
        requires { length rebuilt.now ≡ self.now.config.members }
        ensures shape { IfOk result (λ again. HasChannels self.now.config.members (rows again)) }
        ensures each { IfOk result (λ again. AreSentAgain self.now rebuilt.now (rows again)) }
    {
        let mut rows = Vec::new(*self.members.allocator());
        for number in 0..self.size() {
            let from = Member::at(number);
            rows.push(self.resend_from(rebuilt, from)?)?;
        }
        Ok(Channels::of_rows(rows))
    }

    fn resend_from(
        &self,
        rebuilt: &[MemberRec<B::State, B::Note>],
        from: Member,
    ) -> Result<Vec<Channel<B::Note>>, AllocError>
        requires size { length rebuilt.now ≡ self.now.config.members }
        requires from { from < self.now.config.members }
        ensures size { IfOk result (λ row. vec_len row ≡ self.now.config.members) }
        ensures each { IfOk result (λ row. (p : ℕ) → p < self.now.config.members
            → slice_index_or (map deque_items row.items) p []
            ≡ sent_again self.now.config.f self.now.down (working self.now rebuilt.now) from p) }
    {
        let mut row = Vec::new(*self.members.allocator());
        let mut passed = None;
        for number in 0..self.size() {
            let to = Member::at(number);
            row.push(self.resend_on(rebuilt, from, to, &mut passed)?)?;
        }
        Ok(row)
    }

    /// The channel from one member to another made again, where one of the two is down. What the sender passes on is lent once
    /// it was made.
    fn resend_on(
        &self,
        rebuilt: &[MemberRec<B::State, B::Note>],
        from: Member,
        to: Member,
        passed: &mut Option<Carried>,
    ) -> Result<Channel<B::Note>, AllocError>
        requires size { length rebuilt.now ≡ self.now.config.members }
        requires from { from < self.now.config.members }
        requires to { to < self.now.config.members }
        requires passed { IfSome passed.old (λ carried. carried
            ≡ piggybacked self.now.config.f (working self.now rebuilt.now from).table) }
        ensures passed { IfSome passed.new (λ carried. carried
            ≡ piggybacked self.now.config.f (working self.now rebuilt.now from).table) }
        ensures made { IfOk result (λ channel. channel.items
            ≡ sent_again self.now.config.f self.now.down (working self.now rebuilt.now) from to) }
    {
        if !has_either(self.down(), from, to) {
            return Ok(VecDeque::new(*self.members.allocator()));
        }
        let sender = self.working(rebuilt, from);
        let last = self.working(rebuilt, to).last_from(from);
        let unsent = sender.unsent_beyond(to, last)?;
        put_again(
            *self.members.allocator(),
            from,
            to,
            unsent.as_slice(),
            sender.table(),
            self.config().f(),
            passed,
        )
    }
}

/// These messages, each with what the sender's table passes on: one list for all of them, where there is memory to share it.
fn put_again<N: Copy>(
    alloc: Global,
    from: Member,
    to: Member,
    unsent: &[(u32, N)],
    table: &Table,
    f: u8,
    passed: &mut Option<Carried>,
) -> Result<Channel<N>, AllocError>
    requires { IfSome passed.old (λ carried. carried ≡ piggybacked f table.now) }
    ensures passed { IfSome passed.new (λ carried. carried ≡ piggybacked f table.now) }
    ensures made { IfOk result (λ channel. channel.items ≡ resent from to (piggybacked f table.now) unsent.now) }
{
    // `len` says that no two of the table's determinants are the same, as each message must carry them
    let _distinct_entries = table.len();
    let mut wires = VecDeque::new(alloc);
    for send in unsent {
        let carried = pass_on(passed, table, f)?;
        wires.push_back(Wire::new(from, to, send.0, send.1, carried))?;
    }
    Ok(wires)
}

/// What the table passes on, for one message more. The list is made for the first message, and lent for the others.
fn pass_on(passed: &mut Option<Carried>, table: &Table, f: u8) -> Result<Carried, AllocError>
    requires { IfSome passed.old (λ carried. carried ≡ piggybacked f table.now) }
    ensures passed { IfSome passed.new (λ carried. carried ≡ piggybacked f table.now) }
    ensures value { IfOk result (λ carried. carried ≡ piggybacked f table.now) }
{
    if let Some(carried) = passed {
        return carried.another();
    }
    let made = Carried::for_several(table.piggyback(f)?);
    passed.insert(made).another()
}
