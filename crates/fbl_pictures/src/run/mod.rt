//! The picture of a recorded run.

mod arrows;
mod columns;
mod crossings;
mod finding;
mod marks;
mod members;
mod paths;
mod standing;
mod window;

ghost use Rattle.std.specs.Prelude.{◌≡◌, ◌≤◌, ◌<◌, ℕ, IfOk, IfSome, MatchOption, count_by, length, string_bytes};
ghost use Rattle.fbl_input.specs.Faults.{PutsOut};
ghost use Rattle.fbl_runs.specs.Clocks.{cut_of};
ghost use Rattle.fbl_runs.specs.Entries.{log_of};
ghost use Rattle.fbl_runs.specs.HappenedBefore.{Position};
ghost use Rattle.fbl_runs.specs.declared.judged.Judged.TheVariants.{AtEachMoment, AtItsEnd};
ghost use Rattle.fbl_judge.specs.Audits.{AreNamed, IsAudit};
ghost use Rattle.fbl_judge.specs.Undone.{IsSaidUndone};
ghost use Rattle.fbl_judge.specs.Unsafe.{IsSaidOf};
ghost use Rattle.fbl_pictures.specs.RunPictures.{IsAuditedPicture, IsFindingText, IsFirstUndone, IsPlaceText, IsRunPicture, IsUndonePicture, IsUnsafePicture, LeavesNone, counted as counted_of, drawn_around, run_heading as run_heading_of, things as things_of};
ghost use Rattle.fbl_pictures.specs.RunShapes.{AreShapesOf, is_event, shown_entries as shown_entries_of};
ghost use Rattle.fbl_pictures.specs.Windows.{window_around};

use crate::headings::{audit_words, escaped_text, heading, part_words, undone_words, unsafe_words};
use crate::names::push_any;
use crate::run::arrows::{push_arrows, push_stubs, sources_of};
use crate::run::finding::Finding;
use crate::run::marks::MarkKinds;
use crate::run::members::{Lines, push_members, push_moment};
use crate::run::paths::push_paths;
use crate::run::standing::standing_of;
use crate::run::window::Window;
use crate::svg::picture_text;
use fbl_history::Shape;
use fbl_input::{OutputFault, put};
use fbl_judge::{
    Audit, LostReceipt, Pasts, UndoneReceipt, UnsafeReceipt, audit_of, first_unsafe,
    undone_receipts,
};
use fbl_runs::{Entry, Judged, Sources, spot_text};
use std::alloc::{AllocError, Global};
use std::io::Write;

/// A log of more entries than these whose check is not safe is drawn around the place that the check names first.
const MANY: usize = 200;

/// How many of the entries are sends and receipts.
fn count_events(entries: &[Entry]) -> usize
    ensures value { result ≡ count_by is_event entries.now }
    ensures within { result ≤ length entries.now }
{
    entries
        .iter()
        .filter(|entry| matches!(entry, Entry::Event(_)))
        .count()
}

/// The entries that are drawn: of a dump its events, behind which who holds what stands, and of a log all.
fn shown_entries<'a>(pasts: &Pasts<'a>) -> &'a [Entry]
    ensures { result.now ≡ shown_entries_of pasts.now }
{
    let entries = pasts.entries();
    match pasts.run().judged() {
        Judged::AtItsEnd => &entries[..count_events(entries)],
        Judged::AtEachMoment => entries,
    }
}

/// How many entries the picture of the run may have columns for: of a dump its sends and receipts, of a log all.
pub fn column_count(pasts: &Pasts<'_>) -> usize
    ensures { result ≡ length (shown_entries_of pasts.now) }
{
    shown_entries(pasts).len()
}

/// The shapes of what is found, within the window, under the marks.
fn shapes_of(
    alloc: Global,
    pasts: &Pasts<'_>,
    window: &Window,
    finding: &Finding<'_>,
    standing: &[bool],
    lines: &Lines,
) -> Result<Vec<Shape>, AllocError>
    requires { AreNamed pasts.now finding.now.receipts.now }
    ensures { IfOk result (λ shapes. AreShapesOf pasts.now window.now finding.now standing.now lines.now shapes.items) }
{
    let members = pasts.run().members();
    let entries = shown_entries(pasts);
    let sources = sources_of(alloc, pasts)?;
    let mut shapes = Vec::new(alloc);
    push_any(&mut shapes, window.numbers())?;
    push_members(&mut shapes, members, window, entries, lines)?;
    push_arrows(
        &mut shapes,
        window,
        entries,
        sources.as_slice(),
        standing,
        &lines.moment,
    )?;
    push_stubs(
        &mut shapes,
        alloc,
        window,
        entries,
        sources.as_slice(),
        standing,
        &lines.moment,
    )?;
    push_moment(&mut shapes, members, window, &lines.moment)?;
    push_paths(&mut shapes, alloc, pasts, window, finding, members)?;
    Ok(shapes)
}

/// What a picture counts.
fn things(judged: Judged) -> &'static str
    ensures { result.now ≡ things_of judged }
{
    match judged {
        Judged::AtItsEnd => "events",
        Judged::AtEachMoment => "entries",
    }
}

/// What the heading counts: the entries, and which of them are drawn if the window is a part.
fn counted(alloc: Global, window: &Window, count: usize, things: &str) -> Result<String, AllocError>
    ensures { IfOk result (λ text. string_bytes text ≡ counted_of window.now count things.now) }
{
    if window.is_numbered {
        let last = window.end.saturating_sub(1);
        part_words(alloc, things, window.first, last, count)
    } else {
        format!(in alloc; "{count} {things}")
    }
}

/// The heading of a picture of the run: its numbers, which entries are drawn, and these words.
fn run_heading(
    alloc: Global,
    pasts: &Pasts<'_>,
    window: &Window,
    words: &str,
) -> Result<String, AllocError>
    ensures { IfOk result (λ text. string_bytes text ≡ run_heading_of pasts.now window.now words.now) }
{
    let run = pasts.run();
    let counted = counted(alloc, window, column_count(pasts), things(run.judged()))?;
    heading(alloc, run.members(), run.f(), counted.as_str(), words)
}

/// The picture of what is found around the place, or of all of it, with these words in its heading.
fn finding_text(
    alloc: Global,
    pasts: &Pasts<'_>,
    around: Option<usize>,
    finding: &Finding<'_>,
    words: &str,
) -> Result<String, AllocError>
    requires named { AreNamed pasts.now finding.now.receipts.now }
    requires within { (q : ℕ) → cut_of finding.now.moment q ≤ length (log_of pasts.now.entries q) }
    requires around { IfSome around (λ place. place < length (shown_entries_of pasts.now)) }
    ensures { IfOk result (λ text. IsFindingText pasts.now around finding.now words.now (string_bytes text)) }
{
    let entries = shown_entries(pasts);
    let window = Window::around(entries.len(), around);
    let heading = run_heading(alloc, pasts, &window, words)?;
    let lines = finding.lines(pasts);
    let standing = standing_of(alloc, pasts, &finding.moment)?;
    let kinds = MarkKinds {
        pasts: &*pasts,
        clock: &finding.moment,
        standing: standing.as_slice(),
        lines: &lines,
    };
    let shapes = shapes_of(alloc, pasts, &window, finding, standing.as_slice(), &lines)?;
    let glyphs = kinds.glyphs(alloc, window.first, &entries[window.first..window.end])?;
    picture_text(
        alloc,
        heading.as_str(),
        pasts.run().members(),
        window.columns(),
        shapes.as_slice(),
        glyphs.as_slice(),
    )
}

/// The picture of the run by its audit, around the place, or of all of it.
fn audited_text(
    alloc: Global,
    pasts: &Pasts<'_>,
    around: Option<usize>,
    audit: &Audit,
) -> Result<String, AllocError>
    requires audit { IsAudit pasts.now audit.now }
    requires around { IfSome around (λ place. place < length (shown_entries_of pasts.now)) }
    ensures { IfOk result (λ text. IsAuditedPicture pasts.now around (string_bytes text)) }
{
    let words = audit_words(alloc, pasts.run().strike(), audit.lost.len(), audit.orphans)?;
    let finding = Finding {
        strike: pasts.run().strike(),
        orphans: audit.orphans,
        receipts: audit.lost.as_slice(),
        at: None,
        moment: pasts.last(),
    };
    finding_text(alloc, pasts, around, &finding, words.as_str())
}

/// The words for the place that a check names of a receipt, if it names one.
fn place_text(
    alloc: Global,
    sources: &Sources<'_>,
    place: Option<usize>,
) -> Result<String, AllocError>
    ensures { IfOk result (λ text. IsPlaceText sources.now place (string_bytes text)) }
{
    match place {
        Some(place) => {
            let spot = spot_text(alloc, sources, place)?;
            let spot = escaped_text(alloc, spot.as_str())?;
            format!(in alloc; " at {spot}")
        }
        None => Ok(String::new(alloc)),
    }
}

/// The picture of the run with what is said of an unsafe receipt, around the place, or of all of it.
fn unsafe_text(
    alloc: Global,
    pasts: &Pasts<'_>,
    sources: &Sources<'_>,
    around: Option<usize>,
    said: &UnsafeReceipt,
) -> Result<String, AllocError>
    requires said { (i : Position) × IsSaidOf pasts.now i said.now }
    requires around { IfSome around (λ place. place < length (shown_entries_of pasts.now)) }
    ensures { IfOk result (λ text. IsUnsafePicture pasts.now sources.now around said.now (string_bytes text)) }
{
    let place = place_text(alloc, sources, said.at)?;
    let words = unsafe_words(
        alloc,
        &said.determinant,
        place.as_str(),
        said.strike,
        said.orphans,
    )?;
    let receipts = [LostReceipt {
        place: said.place,
        determinant: said.determinant,
    }];
    let finding = Finding {
        strike: said.strike,
        orphans: said.orphans,
        receipts: &receipts,
        at: said.at,
        moment: said.moment,
    };
    finding_text(alloc, pasts, around, &finding, words.as_str())
}

/// The place around which a run is drawn whose check is not safe: the one that is asked for, and else the one that the check names, if there
/// are many entries.
fn place_around(pasts: &Pasts<'_>, asked: Option<usize>, at: Option<usize>) -> Option<usize>
    ensures { result ≡ drawn_around (length (shown_entries_of pasts.now)) asked at }
{
    if asked.is_some() {
        return asked;
    }
    if column_count(pasts) <= MANY {
        return None;
    }
    at
}

/// The picture of the run with what is said of an unsafe receipt, around the place that is asked for, or around its moment if there are many
/// entries.
fn said_text(
    alloc: Global,
    pasts: &Pasts<'_>,
    sources: &Sources<'_>,
    asked: Option<usize>,
    said: &UnsafeReceipt,
) -> Result<String, AllocError>
    requires said { (i : Position) × IsSaidOf pasts.now i said.now }
    requires asked { IfSome asked (λ place. place < length (shown_entries_of pasts.now)) }
    ensures { IfOk result
        (λ text. IsUnsafePicture pasts.now sources.now
        (drawn_around (length (shown_entries_of pasts.now)) asked said.now.at) said.now (string_bytes text)) }
{
    let around = place_around(pasts, asked, said.at);
    unsafe_text(alloc, pasts, sources, around, said)
}

/// The picture of the log with what is said of a receipt that a restart undid, around the place that is asked for, or around the restart if
/// there are many entries.
fn undone_text(
    alloc: Global,
    pasts: &Pasts<'_>,
    sources: &Sources<'_>,
    asked: Option<usize>,
    said: &UndoneReceipt,
) -> Result<String, AllocError>
    requires judged { pasts.now.judged ≡ AtEachMoment }
    requires said { (i : Position) × IsSaidUndone pasts.now i said.now }
    requires asked { IfSome asked (λ place. place < length (shown_entries_of pasts.now)) }
    ensures { IfOk result (λ text. IsUndonePicture pasts.now sources.now asked said.now (string_bytes text)) }
{
    let around = place_around(pasts, asked, Some(said.at));
    let place = place_text(alloc, sources, Some(said.at))?;
    let words = undone_words(alloc, &said.determinant, place.as_str(), said.orphans)?;
    let receipts = [LostReceipt {
        place: said.place,
        determinant: said.determinant,
    }];
    let finding = Finding {
        strike: pasts.run().strike(),
        orphans: said.orphans,
        receipts: &receipts,
        at: None,
        moment: pasts.last(),
    };
    finding_text(alloc, pasts, around, &finding, words.as_str())
}

/// The first receipt that a restart undid and that leaves orphans at the end.
fn first_undone(alloc: Global, pasts: &Pasts<'_>) -> Result<Option<UndoneReceipt>, AllocError>
    ensures { IfOk result (λ first. MatchOption first (LeavesNone pasts.now) (IsFirstUndone pasts.now)) }
{
    let undone = undone_receipts(alloc, pasts)?;
    Ok(undone.as_slice().first().copied())
}

/// The picture of a run that is judged at its end.
fn end_text(
    alloc: Global,
    pasts: &Pasts<'_>,
    sources: &Sources<'_>,
    asked: Option<usize>,
) -> Result<String, AllocError>
    requires judged { pasts.now.judged ≡ AtItsEnd }
    requires asked { IfSome asked (λ place. place < length (shown_entries_of pasts.now)) }
    ensures { IfOk result (λ text. IsRunPicture pasts.now sources.now asked (string_bytes text)) }
{
    let audit = audit_of(alloc, pasts)?;
    if !audit.orphans.is_empty() {
        return audited_text(alloc, pasts, asked, &audit);
    }
    match first_unsafe(pasts) {
        Some(first) => said_text(alloc, pasts, sources, asked, &first),
        None => audited_text(alloc, pasts, asked, &audit),
    }
}

/// The picture of a run that is judged at each moment.
fn moment_text(
    alloc: Global,
    pasts: &Pasts<'_>,
    sources: &Sources<'_>,
    asked: Option<usize>,
) -> Result<String, AllocError>
    requires judged { pasts.now.judged ≡ AtEachMoment }
    requires asked { IfSome asked (λ place. place < length (shown_entries_of pasts.now)) }
    ensures { IfOk result (λ text. IsRunPicture pasts.now sources.now asked (string_bytes text)) }
{
    match (first_unsafe(pasts), first_undone(alloc, pasts)?) {
        (None, None) => audited_text(alloc, pasts, asked, &audit_of(alloc, pasts)?),
        (Some(said), None) => said_text(alloc, pasts, sources, asked, &said),
        (None, Some(undone)) => undone_text(alloc, pasts, sources, asked, &undone),
        (Some(said), Some(undone)) => {
            if undone.place < said.place {
                undone_text(alloc, pasts, sources, asked, &undone)
            } else {
                said_text(alloc, pasts, sources, asked, &said)
            }
        }
    }
}

/// The picture of the run, around the place that is asked for.
fn run_text(
    alloc: Global,
    pasts: &Pasts<'_>,
    sources: &Sources<'_>,
    asked: Option<usize>,
) -> Result<String, AllocError>
    requires { IfSome asked (λ place. place < length (shown_entries_of pasts.now)) }
    ensures { IfOk result (λ text. IsRunPicture pasts.now sources.now asked (string_bytes text)) }
{
    match pasts.run().judged() {
        Judged::AtItsEnd => end_text(alloc, pasts, sources, asked),
        Judged::AtEachMoment => moment_text(alloc, pasts, sources, asked),
    }
}

/// Draws the run, whose entries stand in these files, and writes the picture as SVG: a line for each member, a mark for each entry that is
/// drawn, and an arrow for each message and each control message. Where a place is given, the 30 entries before it and the 30 behind it are
/// drawn with its entry, and stubs of the arrows that leave these. Where a check of the run says something, the picture shows what its first
/// line says: an unsafe receipt, at its moment if the run is judged at each, or one that a restart undid, at the end; and that around the
/// place which the line names, if the run has more than 200 entries and no place is given. But if the strike set leaves an orphan at the end
/// at which the run is judged, and where the check says nothing, it shows what an audit finds. The time taken is nearly linear in the
/// entries.
pub fn write_run_picture<W: Write>(
    alloc: Global,
    pasts: &Pasts<'_>,
    sources: &Sources<'_>,
    around: Option<usize>,
    writer: &mut W,
) -> Result<(), OutputFault>
    requires { IfSome around (λ place. place < length (shown_entries_of pasts.now)) }
    ensures { PutsOut (λ _. IsRunPicture pasts.now sources.now around)
        (W.contents writer.old) (W.contents writer.new) result }
{
    let text = run_text(alloc, pasts, sources, around)?;
    put(writer, text.as_bytes())
}
