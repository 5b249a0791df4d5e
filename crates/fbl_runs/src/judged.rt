//! When a run is judged.

ghost use Rattle.std.specs.Prelude.{◌≡◌, ◌↔◌, true};

/// When a run is judged.
#[derive(Clone, Copy, PartialEq, Eq, Debug)]
pub enum Judged {
    /// At its last moment, as a dump is, which says what members hold at the end and no more.
    AtItsEnd,
    /// At each of its moments, as a log is, which says from when on members hold what.
    AtEachMoment,
}

impl Judged {
    ghost use Rattle.fbl_runs.specs.declared.judged.Judged.TheVariants.{AtItsEnd};

    /// Whether it is judged at its last moment alone.
    pub fn is_at_its_end(self) -> bool
        ensures { (result ≡ true) ↔ (self ≡ AtItsEnd) }
    {
        self == Judged::AtItsEnd
    }
}
