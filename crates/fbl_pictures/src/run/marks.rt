//! The marks of entries.

ghost use Rattle.std.specs.Prelude.{ℕ, ◌≡◌, ◌≤◌, ◌+◌, ◌++◌, ◌∷◌, [], IfOk, OnOk, length};
ghost use Rattle.fbl_history.specs.declared.shape.Glyph.{Glyph};
ghost use Rattle.fbl_runs.specs.Clocks.{cut_of};
ghost use Rattle.fbl_runs.specs.Entries.{log_of};
ghost use Rattle.fbl_pictures.specs.RunShapes.{AreGlyphs, IsEventKind, IsGlyphOf, IsHeld, IsKind, IsReceiptKind, judged_kind};

use crate::run::members::Lines;
use crate::run::standing::is_undone;
use fbl_history::{Glyph, GlyphKind, ReceiptKind};
use fbl_judge::{Pasts, recorded_at};
use fbl_runs::{Clock, ControlMessage, Entry, Restart};
use fbl_trace::{Determinant, Mark, MemberSet};
use std::alloc::{AllocError, Global};

/// What the kinds of marks follow from.
#[derive(Clone, Copy)]
pub(crate) struct MarkKinds<'a> {
    /// Who holds and stores what from when on.
    pub(crate) pasts: &'a Pasts<'a>,
    /// What has come where receipts are judged.
    pub(crate) clock: &'a Clock,
    /// Which entries stand there.
    pub(crate) standing: &'a [bool],
    /// Who is struck, and where the moment is, if one is drawn: what is right of it is not judged.
    pub(crate) lines: &'a Lines,
}

/// The kind of a receipt that these members hold.
fn judged_kind(f: u8, struck: MemberSet, is_stored: bool, holders: MemberSet) -> ReceiptKind
    ensures { result ≡ judged_kind f struck is_stored holders }
{
    if is_stored {
        ReceiptKind::Stable
    } else if holders.without(struck).is_empty() {
        ReceiptKind::Lost
    } else if u32::from(f) < holders.count() {
        ReceiptKind::Stable
    } else {
        ReceiptKind::Recorded
    }
}

impl MarkKinds<'_> {
    /// The kind of glyph of a receipt that has come.
    fn held_kind(&self, determinant: Determinant) -> GlyphKind
        ensures { IsHeld self.now.pasts.now (cut_of self.now.clock.now) self.now.lines.now.struck determinant result }
    {
        let f = self.pasts.run().f();
        let recorded = recorded_at(self.pasts, &determinant, self.clock);
        GlyphKind::Held {
            determinant,
            kind: judged_kind(f, self.lines.struck, recorded.is_stored, recorded.holders),
            holders: recorded.holders,
        }
    }

    /// The kind of glyph of a receipt, which has come or not, and is undone or not.
    fn receipt_kind(&self, has_come: bool, undone: bool, determinant: Determinant) -> GlyphKind
        ensures { IsReceiptKind self.now.pasts.now
            (cut_of self.now.clock.now) self.now.lines.now.struck has_come undone determinant result }
    {
        let kind = match (has_come, undone) {
            (true, true) => ReceiptKind::Undone,
            (true, false) => return self.held_kind(determinant),
            (false, _) => ReceiptKind::ToCome,
        };
        GlyphKind::Held {
            determinant,
            kind,
            holders: MemberSet::empty(),
        }
    }

    /// The kind of glyph of an event, which has come or not, and is undone or not.
    fn event_kind(&self, has_come: bool, undone: bool, event: Mark) -> GlyphKind
        ensures { IsEventKind self.now.pasts.now
            (cut_of self.now.clock.now) self.now.lines.now.struck has_come undone event result }
    {
        match event {
            Mark::Send { ssn, to, .. } => GlyphKind::Send { ssn, to, undone },
            Mark::Receipt { to, rsn, from, ssn } => {
                self.receipt_kind(has_come, undone, Determinant { from, ssn, to, rsn })
            }
        }
    }

    /// The kind of glyph of an entry, which has come or not, and is undone or not.
    fn entry_kind(&self, has_come: bool, undone: bool, entry: Entry) -> GlyphKind
        ensures { IsKind self.now.pasts.now
            (cut_of self.now.clock.now) self.now.lines.now.struck has_come undone entry result }
    {
        match entry {
            Entry::Event(event) => self.event_kind(has_come, undone, event),
            Entry::Hold { determinant, .. } => GlyphKind::Hold(determinant),
            Entry::Store { determinant, .. } => GlyphKind::Store(determinant),
            Entry::Tell(ControlMessage { to, id, .. }) => GlyphKind::Tell { to, id },
            Entry::Told(ControlMessage { from, id, .. }) => GlyphKind::Told { from, id },
            Entry::LaterReceipt { determinant, .. } => {
                self.receipt_kind(has_come, undone, determinant)
            }
            Entry::Restart(
                Restart {
                    life,
                    receipts,
                    sends,
                    ..
                },
            ) => GlyphKind::Restart {
                life,
                receipts,
                sends,
            },
        }
    }

    /// Adds the glyph of the entry at the place, in this column.
    fn push_glyph(
        &self,
        glyphs: &mut Vec<Glyph>,
        place: usize,
        column: usize,
        entry: &Entry,
    ) -> Result<(), AllocError>
        ensures { OnOk result
            ((mark : Glyph)
            × IsGlyphOf self.now.pasts.now
            (cut_of self.now.clock.now) self.now.standing.now self.now.lines.now place column entry.now mark
            × (glyphs.new.items ≡ glyphs.old.items ++ mark ∷ [])) }
    {
        let member = entry.member();
        let has_come = self.lines.moment.has_come(place, member);
        let undone = is_undone(self.standing, &self.lines.moment, place, member);
        let kind = self.entry_kind(has_come, undone, *entry);
        glyphs.push(Glyph {
            column,
            member,
            kind,
            to_come: !has_come,
        })?;
        Ok(())
    }

    /// The glyphs of these entries of the run, the first of which stands at this place, one in each column.
    pub(crate) fn glyphs(
        &self,
        alloc: Global,
        first: usize,
        entries: &[Entry],
    ) -> Result<Vec<Glyph>, AllocError>
        requires { first + length entries.now ≤ usize.MAX }
        ensures { IfOk result
            (λ glyphs. AreGlyphs self.now.pasts.now
            (cut_of self.now.clock.now) self.now.standing.now self.now.lines.now first 0 entries.now glyphs.items) }
    {
        let mut glyphs = Vec::new(alloc);
        for column in 0..entries.len() {
            self.push_glyph(&mut glyphs, first + column, column, &entries[column])?;
        }
        Ok(glyphs)
    }
}
