//! The laws of a group's record: what keeps it sound, what the promise is made of, and how a recovery's replay goes. Each is the
//! contract of a function that does nothing, and the check of the crate proves it.

ghost use Rattle.std.specs.Prelude.{◌≡◌, ℕ};
ghost use Rattle.fbl_law.specs.Promises.{DumpHasNoOrphan, DumpObeysRules, GainsHolders, HoldsEachReceipt, LeavesRecorded, RecordsCauses, RecordsFirst};
ghost use Rattle.fbl_law.specs.GroupLaws.{CheckpointIsRecorded, CutIsClosed, GainsTheDown, GroupCheckpointKeeps, GroupDeliveryKeeps, GroupRecoveryKeeps, GroupStartIsSound, GroupStrikeKeeps, HeldByMoreStays, IsFirstInFirstOut, NoSurvivorIsOrphan, OfRecovery, RebuiltIsRecovered, RecordedTest, RecoveryExists, RecoveryIsOne, ReplayBegins, ReplayEnds, ReplayIsRight, RunIsSound, SoundSurvivorsHold, StaysIsRecorded, StrikeIsOne, StrikesJoin, UndoesLost};
ghost use Rattle.fbl_law.specs.CrashFree.{CrashesAreMasked, CrashFreeIsRun, KeepsPasts};
ghost use Rattle.fbl_law.specs.Groups.{knowledge, OfSound};
ghost use Rattle.fbl_law.specs.Knowledge.{IsAlwaysHeld, IsOrphan};
ghost use Rattle.fbl_law.specs.GroupSteps.{recovered_trace, IsEventCut, Stays};

/// A group in which nothing is received yet is sound: its trace has the starts alone, so there is no determinant to hold.
///
/// A delivery keeps it sound: the determinants of the receipts that the message depends on come with it, but for stable ones, so
/// the receiver's table names what it depends on, but for stable receipts; and its state is again the fold of its receipts. So
/// does a strike after which at most f members are down: of the more than f holders of a stable receipt one survives. So does a
/// checkpoint: the member is at the fold of its receipts, and its table names what they depend on, but for stable receipts. And
/// so does a recovery, and every run of these.
pub fn sound_law<S, N>()
    ensures start { GroupStartIsSound S N }
    ensures delivery { GroupDeliveryKeeps S N }
    ensures strike { GroupStrikeKeeps S N }
    ensures checkpoint { GroupCheckpointKeeps S N }
    ensures recovery { GroupRecoveryKeeps S N }
    ensures run { RunIsSound S N }
{}

/// On each channel of a sound group the messages received are the first of those sent, each once and in the order in which they
/// were sent; the channel has the others in that order, where its ends are up.
pub fn channel_law<S, N>()
    ensures { OfSound S N (λ r. (q p : ℕ) → IsFirstInFirstOut r q p) }
{}

/// A strike of some members and then of others is a strike of both, and leaves what one strike of both leaves. And whatever is
/// struck, recovered and delivered, a receipt that more than f members hold is never undone: at each moment one of them is up and
/// holds it, and once nobody is down more than f do.
pub fn strike_law<S, N>()
    ensures joined { StrikesJoin S N }
    ensures only { StrikeIsOne S N }
    ensures held { HeldByMoreStays S N }
{}

/// In a sound group a receipt is recorded exactly where some member's table or some checkpoint's has its determinant; the
/// receipts of a member's checkpoint are always recorded. What precedes a recorded receipt is recorded, and the recorded
/// receipts of a member, up or down, are its first ones: it can be put at the fold of them.
pub fn recorded_law<S, N>()
    ensures test { RecordedTest S N }
    ensures checkpoint { CheckpointIsRecorded S N }
    ensures causes { OfSound S N (λ r. RecordsCauses (knowledge r)) }
    ensures first { OfSound S N (λ r. RecordsFirst (knowledge r)) }
{}

/// The promise. In a sound group in which nobody is down each receipt is held by more than f members or by each member that
/// depends on it; whoever is down, each receipt has more than f holders or is held by each up member that depends on it. This is
/// the condition of "always no orphans" (Alvisi and Marzullo 1998).
///
/// Whichever at most f members are struck, in one call or several, no survivor is an orphan: what a survivor depends on, a
/// survivor has recorded.
pub fn no_orphan_law<S, N>()
    ensures tables { OfSound S N HoldsEachReceipt }
    ensures holders { OfSound S N (λ r. IsAlwaysHeld r.config.f (knowledge r)) }
    ensures sound { OfSound S N (λ r. (m : ℕ) → ¬ (IsOrphan (knowledge r) m)) }
    ensures struck { NoSurvivorIsOrphan S N }
    ensures recorded { SoundSurvivorsHold S N }
{}

/// A dump of a sound group obeys the rules of dumps, and where its strike set has those that are down and at most f
/// members in all, the audit finds no orphan in it.
#[tactic(auto, using(crate::proofs::Promises::dump_obeys_rules, crate::proofs::Promises::dump_has_no_orphan))]
pub fn dump_law<S, N>()
    ensures rules { DumpObeysRules S N }
    ensures no_orphan { DumpHasNoOrphan S N }
{}

/// The holders of a receipt after a recovery are those before it: of a recorded receipt, with all members that were down. A
/// recovery leaves the recorded receipts, in their order, and undoes the lost ones. What it leaves of the trace are the events
/// before their member's first lost receipt. An event stays exactly where each receipt that precedes it is recorded, so all that
/// precedes it stays with it.
pub fn recovery_law<S, N>()
    ensures stay { OfRecovery S N (λ old new. GainsHolders (knowledge old) (knowledge new)) }
    ensures gain { OfRecovery S N GainsTheDown }
    ensures left { OfRecovery S N LeavesRecorded }
    ensures undone { OfRecovery S N UndoesLost }
    ensures cut { OfSound S N (λ r. IsEventCut (Stays (knowledge r)) r.trace (recovered_trace r)) }
    ensures one { OfRecovery S N (λ old new. new.trace ≡ recovered_trace old) }
    ensures stays { StaysIsRecorded S N }
    ensures closed { CutIsClosed S N }
{}

/// Of each sound group there is a recovery, and only one: what a recovery leaves follows from the group.
pub fn one_recovery_law<S, N>()
    ensures exists { RecoveryExists S N }
    ensures only { RecoveryIsOne S N }
{}

/// Replay begins at the checkpoints; that of what the gathered tables find, with the notes of the senders' logs, is right
/// and never gets stuck, and what it rebuilds makes a recovery.
pub fn replay_law<S, N>()
    ensures begins { ReplayBegins S N }
    ensures right { ReplayIsRight S N }
    ensures ends { ReplayEnds S N }
    ensures recovered { RebuiltIsRecovered S N }
{}

/// Crashes are masked. Whoever crashed, whatever was recovered and whoever is down, there is a run by deliveries alone, from a
/// start of the same configuration, to a group with the same trace, in which each member that is up has the same state, the same
/// counts and the same log, and each channel between two of these the same messages. The two differ only in what tables and
/// messages know of determinants, in checkpoints and in counters.
///
/// Such a run is one of those that keep a group sound. And a recovery leaves each member's first events, and all those of a
/// survivor.
pub fn crash_free_law<S, N>()
    ensures masked { CrashesAreMasked S N }
    ensures run { CrashFreeIsRun S N }
    ensures pasts { OfRecovery S N KeepsPasts }
{}
