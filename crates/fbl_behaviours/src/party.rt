//! Parties to a two-phase commit, and what no delivery breaks: nobody has committed where somebody has aborted.

use arrayvec::ArrayVec;
use fbl_plain::Upholding;
use fbl_trace::{Behaviour, Content, Exact, Member, Outcome};

/// Where a party stands.
#[derive(Clone, Copy, PartialEq, Debug)]
pub enum Stand {
    /// It has not voted.
    Open,
    /// It has voted yes, and waits for the decision.
    Ready,
    /// It has voted no, and so aborted.
    Refused,
    /// It has committed.
    Committed,
    /// It has aborted.
    Aborted,
}

impl Exact for Stand {
    ghost use Rattle.std.proofs.Common.{rules};

    ghost exact = { Prim.search rules };
}

/// What parties tell each other.
#[derive(Clone, Copy, PartialEq, Debug, Default)]
pub enum Word {
    /// The party is to vote no.
    #[default]
    Refuse,
    /// All members below this number have voted yes.
    Agreed { below: u8 },
    /// Somebody has voted no.
    Abort,
}

impl Exact for Word {
    ghost use Rattle.std.proofs.Common.{rules};

    ghost exact = { Prim.search rules };
}

// A start may tell a party to refuse, and let the vote begin: nobody is below member 0.
impl Content for Word {
    ghost use Rattle.fbl_behaviours.specs.Commits.{may_start};

    ghost allowed = { may_start };

    fn is_allowed(&self) -> bool {
        match self {
            Word::Refuse => true,
            Word::Agreed { below } => *below == 0,
            Word::Abort => false,
        }
    }
}

/// A party to a linear two-phase commit. A member votes yes when it hears that all members below it have, and no when it is told to
/// refuse before that. Where all have voted yes, or somebody has voted no, the word of it goes round the ring, and each member that
/// hears it commits or aborts. Whoever moves tells the next one.
pub struct Party;

impl Party {
    ghost use Rattle.std.specs.Prelude.{◌≡◌, ◌≤◌, ◌<◌};
    ghost use Rattle.fbl_behaviours.specs.Commits.{told, moves, stays};

    /// What a party tells the next one by where it stands, once it has voted.
    fn told(me: Member, n: u8, stand: Stand) -> Word
        requires most { n ≤ 16 }
        requires member { me < n }
        ensures { result ≡ told me n stand }
    {
        match stand {
            Stand::Open => Word::Refuse,
            Stand::Ready => Word::Agreed {
                below: me.number() + 1,
            },
            Stand::Committed => Word::Agreed { below: n },
            Stand::Refused | Stand::Aborted => Word::Abort,
        }
    }

    /// The party moves there, and tells the next member.
    fn moves(me: Member, n: u8, stand: Stand) -> Outcome<Stand, Word>
        requires least { 2 ≤ n }
        requires most { n ≤ 16 }
        requires member { me < n }
        ensures { result ≡ moves me n stand }
    {
        let mut sends = ArrayVec::new();
        sends.push((me.after(1, n), Party::told(me, n, stand)));
        Outcome {
            state: stand,
            sends,
        }
    }

    /// The party stays there, and tells nobody.
    fn stays(stand: Stand) -> Outcome<Stand, Word>
        ensures { result ≡ stays stand }
    {
        Outcome {
            state: stand,
            sends: ArrayVec::new(),
        }
    }
}

impl Behaviour for Party {
    ghost use Rattle.std.proofs.Common.{rules};
    ghost use Rattle.fbl_behaviours.specs.Commits.{party_next, party_sends_allowed};

    type State = Stand;

    type Note = Word;

    ghost next = { party_next };

    ghost laws = { Prim.search (rules, party_sends_allowed) };

    fn initial(_me: Member, _n: u8) -> Stand {
        Stand::Open
    }

    fn step(me: Member, n: u8, stand: Stand, word: Word) -> Outcome<Stand, Word> {
        match (stand, word) {
            (Stand::Open, Word::Agreed { below }) if below == me.number() => {
                Party::moves(me, n, Stand::Ready)
            }
            (Stand::Ready, Word::Agreed { below }) if below == n => {
                Party::moves(me, n, Stand::Committed)
            }
            (Stand::Open, Word::Refuse) => Party::moves(me, n, Stand::Refused),
            (Stand::Open | Stand::Ready, Word::Abort) => Party::moves(me, n, Stand::Aborted),
            _ => Party::stays(stand),
        }
    }
}

// What parties tell is true, so nobody has committed where somebody has aborted.
impl Upholding for Party {
    ghost use Rattle.fbl_behaviours.specs.Commits.{IsTruthful, commit_first, commit_keeps};

    ghost law = { IsTruthful };

    ghost law_first = { commit_first };

    ghost law_kept = { commit_keeps };
}
