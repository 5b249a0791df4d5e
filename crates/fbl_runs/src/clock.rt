//! Vector clocks.

ghost use Rattle.std.specs.Prelude.{◌≡◌, ◌<◌, ◌==◌, ℕ, max, length, if◌then◌else◌};

use fbl_trace::Member;

/// For each number below 24, how many of the first entries of what has the number have come: of the member, or of a life of a member.
#[derive(Clone, Copy)]
pub struct Clock {
    counts: [usize; 24],
    ghost room: { length counts ≡ 24 },
}

impl Clock {
    ghost use Rattle.fbl_runs.specs.Clocks.{IsNoClock, cut_of};

    /// The clock at which nothing has come.
    pub fn none() -> Clock
        ensures { IsNoClock result }
    {
        Clock { counts: [0; 24] }
    }

    /// How many of the member's entries have come, or of the life's, by the number. From 24 on there are none.
    pub(crate) fn at(&self, number: u8) -> usize
        ensures { result ≡ cut_of self.now number }
    {
        match self.counts.get(number as usize) {
            Some(count) => *count,
            None => 0,
        }
    }

    /// How many of the member's entries have come.
    pub fn count(&self, member: Member) -> usize
        ensures { result ≡ cut_of self.now member }
    {
        self.counts[member.number() as usize]
    }

    /// Has what is in the other come too.
    pub(crate) fn join(&mut self, other: &Clock)
        ensures { (q : ℕ) → cut_of self.new q ≡ max (cut_of self.old q) (cut_of other.now q) }
    {
        for number in 0..24usize {
            self.counts[number] = self.counts[number].max(other.counts[number]);
        }
    }

    /// Has so many first entries of what has the number come too.
    pub(crate) fn reach(&mut self, number: u8, count: usize)
        requires { number < 24 }
        ensures { (q : ℕ) → cut_of self.new q ≡ max (cut_of self.old q) (if q == number then count else 0) }
    {
        let at = number as usize;
        self.counts[at] = self.counts[at].max(count);
    }

    /// The clock at which what is in either has come.
    pub fn joined(self, other: &Clock) -> Clock
        ensures { (q : ℕ) → cut_of result q ≡ max (cut_of self q) (cut_of other.now q) }
    {
        let mut both = self;
        both.join(other);
        both
    }

    /// The clock at which also so many of the member's first entries have come.
    pub fn reaching(self, member: Member, count: usize) -> Clock
        ensures { (q : ℕ) → cut_of result q ≡ max (cut_of self q) (if q == member then count else 0) }
    {
        let mut more = self;
        more.reach(member.number(), count);
        more
    }
}
