//! The record of a group.

ghost use Rattle.std.specs.Prelude.{◌≡◌, ℕ, ◌<◌, length, IfOk, IsTrue, ◌↔◌};

use fbl_channels::Channels;
use fbl_member::MemberRec;
use fbl_trace::{Behaviour, Config, Event, MemberSet};
use std::marker::{Model, PhantomData};

/// A group of deterministic members: its members' volatile records and their checkpoints, the messages in flight on
/// each channel, and the trace of what happened. Contracts see the record as data; it is sound between any two calls.
#[derive(Drop)]
pub struct Group<B: Behaviour> {
    pub(crate) config: Config<B::Note>,
    pub(crate) members: Vec<MemberRec<B::State, B::Note>>,
    pub(crate) checkpoints: Vec<MemberRec<B::State, B::Note>>,
    pub(crate) channels: Channels<B::Note>,
    pub(crate) trace: Vec<Event<B::Note>>,
    pub(crate) down: MemberSet,
    pub(crate) receipts_ever: u64,
    pub(crate) undone_ever: u64,
    pub(crate) behaviour: PhantomData<B>,
}

impl<B: Behaviour> Model for Group<B> {
    ghost use Rattle.fbl_law.specs.Groups.{GroupRecord};
    ghost use Rattle.fbl_law.specs.Groups.{IsSound};
    ghost use Rattle.fbl_channels.specs.Channels.{rows};

    ghost Value = { GroupRecord B.State B.Note };

    ghost use Rattle.std.specs.Coded.{codes, coded_ℕ};
    ghost use Rattle.std.specs.Ordering.{nat_cmp};
    ghost use Rattle.std.specs.FinSet as set;
    ghost use Rattle.fbl_table.specs.contracts.entry.Entry as entry;

    ghost coded = { Prim.hlevel (codes, B.State.code, B.Note.code, entry.the_row.coded, set.code {R = nat_cmp} coded_ℕ) };

    ghost view = { λ g. record {
      outside = B.next.initial 0 0;
      config = g.config;
      members = g.members.items;
      checkpoints = g.checkpoints.items;
      channels = rows g.channels;
      trace = g.trace.items;
      down = g.down;
      receipts_ever = g.receipts_ever;
      undone_ever = g.undone_ever;
    } };

    ghost invariant = { λ g. IsSound B.next
        (record {
          outside = B.next.initial 0 0;
          config = g.config;
          members = g.members.items;
          checkpoints = g.checkpoints.items;
          channels = rows g.channels;
          trace = g.trace.items;
          down = g.down;
          receipts_ever = g.receipts_ever;
          undone_ever = g.undone_ever;
        }) };
}
