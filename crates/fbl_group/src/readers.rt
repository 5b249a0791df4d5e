//! What a group answers of itself.

ghost use Rattle.std.specs.Prelude.{◌≡◌, ℕ, ◌<◌, ◌≤◌, ◌+◌, length};
ghost use Rattle.fbl_trace.specs.MemberSets.{AllBelow};
ghost use Rattle.fbl_trace.specs.Fold.{state_after};
ghost use Rattle.fbl_law.specs.Knowledge.{IsUp, IsDown};
ghost use Rattle.fbl_law.specs.Groups.{channel as channel_of, member_checkpoint, messages_in_flight as messages_in_flight_of, knowledge, marks, member as record_of, receipts, IsSound, received_notes};
ghost use Rattle.std.specs.FinSet as set;
ghost use Rattle.fbl_law.specs.StepLaws.{weight_held, weight_flying};
ghost use Rattle.fbl_law.specs.Promises.{SurvivorsHold, RecordsFirst, RecordsCauses};
ghost use Rattle.fbl_law.specs.CrashFree.{LooksCrashFree};
ghost use Rattle.fbl_group.specs.Readers.{is_quiet as is_quiet_now};
ghost use Rattle.fbl_group.specs.Records.{CountsEach};
ghost use Rattle.fbl_group.specs.Theorem.{HasNoOrphan, IsRecoverable};

use crate::group::Group;
use arrayvec::ArrayVec;
use fbl_member::MemberRec;
use fbl_table::Table;
use fbl_trace::{Behaviour, Config, Event, Member, MemberSet, Note};

impl<B: Behaviour> Group<B> {
    /// The parameters.
    pub fn config(&self) -> &Config<B::Note>
        ensures { result.now ≡ self.now.config }
    {
        &self.config
    }

    /// The member's state, its first one if it is down. The member is one of the group.
    ///
    /// Where it is up, its causes are the receipts that the trace names: the state is what the steps make of its first state and
    /// of the notes that the member received, in their order.
    pub fn state(&self, member: Member) -> B::State
        requires { member < self.now.config.members }
        ensures value { result ≡ (record_of self.now member).state }
        ensures causes { IsUp (knowledge self.now) member
            → result ≡ state_after B.next member self.now.config.members
            (received_notes self.now.trace member) }
        ensures down { IsDown (knowledge self.now) member → result ≡ B.next.initial member self.now.config.members }
    {
        self.record(member).state()
    }

    /// How many messages the member has received, 0 if it is down. The member is one of the group.
    pub fn received(&self, member: Member) -> u32
        requires { member < self.now.config.members }
        ensures { result ≡ (record_of self.now member).received }
    {
        self.record(member).received()
    }

    /// How many messages the member has sent, 0 if it is down. The member is one of the group.
    pub fn sent(&self, member: Member) -> u32
        requires { member < self.now.config.members }
        ensures { result ≡ length (record_of self.now member).log }
    {
        self.record(member).sent()
    }

    /// How many messages each member has received, by its number, 0 if it is down.
    pub fn received_each(&self) -> ArrayVec<u32, 16>
        ensures { CountsEach self.now (λ m. (record_of self.now m).received) result.items }
    {
        let mut received = ArrayVec::new();
        for number in 0..self.size() {
            received.push(self.received(Member::at(number)));
        }
        received
    }

    /// How many messages each member has sent, by its number, 0 if it is down.
    pub fn sent_each(&self) -> ArrayVec<u32, 16>
        ensures { CountsEach self.now (λ m. length (record_of self.now m).log) result.items }
    {
        let mut sent = ArrayVec::new();
        for number in 0..self.size() {
            sent.push(self.sent(Member::at(number)));
        }
        sent
    }

    /// How many determinants the member holds, 0 if it is down. The member is one of the group.
    pub fn held(&self, member: Member) -> u32
        requires { member < self.now.config.members }
        ensures { result ≡ length (record_of self.now member).table }
    {
        self.record(member).table().len() as u32
    }

    /// The determinants that the member holds, none if it is down. The member is one of the group.
    pub fn table(&self, member: Member) -> &Table
        requires { member < self.now.config.members }
        ensures { result.now ≡ (record_of self.now member).table }
    {
        self.record(member).table()
    }

    /// How many messages are in flight from one member to the other. Both are members of the group.
    pub fn in_flight(&self, from: Member, to: Member) -> u32
        requires from { from < self.now.config.members }
        requires to { to < self.now.config.members }
        ensures { result ≡ length (channel_of self.now from to) }
    {
        self.channels.between(from, to).len() as u32
    }

    /// What happened, in order: the starts' sends, and then the receipts and sends that no recovery has undone. The group is
    /// sound, and the theorem holds of it, as `recoverable` says.
    pub fn trace(&self) -> &[Event<B::Note>]
        ensures trace { result.now ≡ self.now.trace }
        ensures sound { IsSound B.next self.now }
        ensures theorem { IsRecoverable B.next self.now }
    {
        self.recoverable();
        self.trace.as_slice()
    }

    /// The theorem, of every group between two calls: where nobody is down, each receipt of the trace is held by more than f members
    /// or by every member whose state depends on it; whoever is struck then, nobody is an orphan, and there is exactly one recovery,
    /// which leaves the survivors untouched and puts each other member at the fold of its recorded receipts. Does nothing but
    /// promise it, and that the group is sound.
    pub fn recoverable(&self)
        ensures sound { IsSound B.next self.now }
        ensures theorem { IsRecoverable B.next self.now }
    {
        self.promises();
    }

    /// Crashes are masked, in every group between two calls: there is a run by deliveries alone, from a start of the same
    /// configuration, to a group with the same trace, in which each member that is up has the same state, the same counts and the
    /// same log, and each channel between two of these has the same messages. Does nothing but promise it.
    pub fn crash_free(&self)
        ensures { LooksCrashFree B.next self.now }
    {
        self.promises();
    }

    /// Does nothing but promise what holds of each group, since it is sound.
    pub(crate) fn promises(&self)
        ensures sound { IsSound B.next self.now }
        ensures no_orphan { HasNoOrphan self.now }
        ensures survivors { SurvivorsHold (knowledge self.now) self.now.down }
        ensures first { RecordsFirst (knowledge self.now) }
        ensures causes { RecordsCauses (knowledge self.now) }
    {
        let _ = self.down.count();
    }

    /// Who is down.
    pub fn down(&self) -> MemberSet
        ensures down { result ≡ self.now.down }
        ensures within { AllBelow result self.now.config.members }
    {
        self.down
    }

    /// Whether nothing is in flight and nobody is down.
    #[tactic(auto, using(std::proofs::lemmas::Bool::Decides::nat_tests))]
    pub fn is_quiet(&self) -> bool
        ensures { result ≡ is_quiet_now self.now }
    {
        self.down().count() == 0 && self.unreceived() == 0
    }

    /// How many messages are in all channels.
    pub fn messages_in_flight(&self) -> usize
        ensures { result ≡ messages_in_flight_of self.now }
    {
        if self.down().count() == 0 {
            self.unreceived()
        } else {
            self.channels.messages(self.config.members())
        }
    }

    /// How many sends of the trace have no receipt there. While nobody is down, just these messages are in flight: no
    /// channel is looked at.
    fn unreceived(&self) -> usize
        ensures { set.len self.now.down ≡ 0 → result ≡ messages_in_flight_of self.now }
    {
        self.trace.len() - 2 * self.receipt_count() as usize
    }

    pub(crate) fn receipt_count(&self) -> u64
        ensures { result ≡ length (receipts (marks self.now)) }
    {
        self.receipts_ever - self.undone_ever
    }

    /// How many receipts were ever made, also those that recoveries have undone. It never falls.
    pub fn receipts_ever(&self) -> u64
        ensures { result ≡ self.now.receipts_ever }
    {
        self.receipts_ever
    }

    /// How many receipts recoveries have undone. It never falls.
    pub fn undone_ever(&self) -> u64
        ensures { result ≡ self.now.undone_ever }
    {
        self.undone_ever
    }

    pub(crate) fn size(&self) -> u8
        ensures value { result ≡ self.now.config.members }
        ensures few { result ≤ 16 }
    {
        self.config.members()
    }

    pub(crate) fn record(&self, member: Member) -> &MemberRec<B::State, B::Note>
        requires { member < self.now.config.members }
        ensures value { result.now ≡ record_of self.now member }
        ensures sound { IsSound B.next self.now }
    {
        &self.members[usize::from(member.number())]
    }

    pub(crate) fn checkpoint_of(&self, member: Member) -> &MemberRec<B::State, B::Note>
        requires { member < self.now.config.members }
        ensures { result.now ≡ member_checkpoint self.now member }
    {
        &self.checkpoints[usize::from(member.number())]
    }
}

impl<B: Behaviour<State = u64>> Group<B> {
    /// The sum of the states of the members that are up.
    pub fn sum_of_states(&self) -> u128
        ensures value { result ≡ weight_held (λ me state. state) self.now }
        ensures bound { result ≤ 295147905179352825840 }
    {
        let mut sum = 0u128;
        for number in 0..self.config.members() {
            let member = Member::at(number);
            if !self.down().has(member) {
                sum += u128::from(self.state(member));
            }
        }
        sum
    }
}

impl<B: Behaviour<Note = Note>> Group<B> {
    /// What the messages in flight hold, on all channels: the sum of their values.
    pub fn value_in_flight(&self) -> u64
        ensures { result ≡ weight_flying (λ note. note.value) self.now }
    {
        self.channels.value(self.config.members())
    }
}
