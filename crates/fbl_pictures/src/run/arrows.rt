//! The arrows of messages and of control messages.

ghost use Rattle.std.specs.Prelude.{◌≡◌, ◌++◌, IfOk, OnOk, None, slice_get, slice_index_or};
ghost use Rattle.fbl_pictures.specs.RunShapes.{AreSources, AreTaken, arrow_by, arrow_from as arrow_from_of, entry_arrow, entry_stub, event_stub as event_stub_of, in_time, kind_of_arrow, stub_of};
ghost use Rattle.fbl_history.specs.Shapes.{drawn};

use crate::run::columns::Columns;
use crate::run::standing::is_undone;
use crate::run::window::Window;
use fbl_history::{ArrowKind, Shape};
use fbl_judge::Pasts;
use fbl_runs::Entry;
use fbl_trace::Mark;
use std::alloc::{AllocError, Global};
use std::collections::HashSet;
use std::hash::{BuildHasherDefault, FoldHasher};

/// A set of places.
type PlaceSet = HashSet<usize, BuildHasherDefault<FoldHasher>>;

/// For each entry of the run the place of the send whose message it takes, or of the tell that it is told.
pub(crate) fn sources_of(alloc: Global, pasts: &Pasts<'_>) -> Result<Vec<Option<usize>>, AllocError>
    ensures { IfOk result (λ sources. AreSources pasts.now.entries sources.items) }
{
    let entries = pasts.entries();
    let index = pasts.index();
    let mut sources = Vec::new(alloc);
    for place in 0..entries.len() {
        sources.push(index.link(place).message)?;
    }
    Ok(sources)
}

/// The places from which something is taken.
fn taken_places(alloc: Global, sources: &[Option<usize>]) -> Result<PlaceSet, AllocError>
    ensures { IfOk result (AreTaken sources.now) }
{
    let mut taken = HashSet::new(alloc);
    for source in sources {
        if let Some(place) = *source {
            taken.insert(place)?;
        }
    }
    Ok(taken)
}

/// Adds what is drawn of an entry, if anything is: in grey if the entry has not come.
fn push_in_time(
    shapes: &mut Vec<Shape>,
    has_come: bool,
    shape: Option<Shape>,
) -> Result<(), AllocError>
    ensures { OnOk result (shapes.new.items ≡ shapes.old.items ++ in_time has_come shape) }
{
    let Some(shape) = shape else {
        return Ok(());
    };
    if has_come {
        shapes.push(shape)?;
    } else {
        shapes.push(Shape::BeginToCome)?;
        shapes.push(shape)?;
        shapes.push(Shape::EndToCome)?;
    }
    Ok(())
}

/// How the arrow to the entry is drawn, which is undone or not.
fn arrow_kind(undone: bool, entry: Entry) -> ArrowKind
    ensures { result ≡ kind_of_arrow undone entry }
{
    match entry {
        Entry::Told(_) => ArrowKind::Control,
        _ if undone => ArrowKind::Undone,
        _ => ArrowKind::Message,
    }
}

/// Adds what is drawn of the arrow from the entry at one place, if there is one, to that at another, which is undone or not.
fn push_arrow_from(
    shapes: &mut Vec<Shape>,
    window: &Window,
    moment: &Columns,
    undone: bool,
    from: Option<Entry>,
    source: usize,
    place: usize,
    entry: &Entry,
) -> Result<(), AllocError>
    ensures { OnOk result
        (shapes.new.items ≡ shapes.old.items ++ arrow_from_of window.now moment.now undone from source place entry.now) }
{
    let Some(sent) = from else {
        return Ok(());
    };
    let from = sent.member();
    let has_come = moment.has_come(source, from);
    let kind = arrow_kind(undone, *entry);
    let arrow = window.arrow(from, source, entry.member(), place, kind);
    push_in_time(shapes, has_come, arrow)
}

/// Adds what is drawn of the arrow to the entry at the place, if it takes a message or is told.
fn push_arrow(
    shapes: &mut Vec<Shape>,
    window: &Window,
    entries: &[Entry],
    sources: &[Option<usize>],
    standing: &[bool],
    moment: &Columns,
    place: usize,
    entry: &Entry,
) -> Result<(), AllocError>
    ensures { OnOk result
        (shapes.new.items ≡ shapes.old.items
        ++ entry_arrow window.now entries.now sources.now standing.now moment.now place entry.now) }
{
    let source = match sources.get(place) {
        Some(source) => *source,
        None => None,
    };
    match source {
        Some(source) => push_arrow_from(
            shapes,
            window,
            moment,
            is_undone(standing, moment, place, entry.member()),
            entries.get(source).copied(),
            source,
            place,
            entry,
        ),
        None => Ok(()),
    }
}

/// Adds the arrows of all messages and control messages that are taken.
pub(crate) fn push_arrows(
    shapes: &mut Vec<Shape>,
    window: &Window,
    entries: &[Entry],
    sources: &[Option<usize>],
    standing: &[bool],
    moment: &Columns,
) -> Result<(), AllocError>
    ensures { OnOk result
        (shapes.new.items ≡ shapes.old.items
        ++ drawn (entry_arrow window.now entries.now sources.now standing.now moment.now) 0 entries.now) }
{
    for place in 0..entries.len() {
        push_arrow(
            shapes,
            window,
            entries,
            sources,
            standing,
            moment,
            place,
            &entries[place],
        )?;
    }
    Ok(())
}

/// The stub of the event's message, if it is a send, which is undone or not, and the stub is drawn.
fn event_stub(window: &Window, undone: bool, place: usize, event: Mark) -> Option<Shape>
    ensures { result ≡ event_stub_of window.now undone place event }
{
    match event {
        Mark::Send { from, to, .. } => window.in_flight(undone, from, place, to),
        Mark::Receipt { .. } => None,
    }
}

/// The stub of what the entry sends or tells, if it does and the stub is drawn.
fn stub(window: &Window, undone: bool, place: usize, entry: Entry) -> Option<Shape>
    ensures { result ≡ stub_of window.now undone place entry }
{
    match entry {
        Entry::Event(event) => event_stub(window, undone, place, event),
        Entry::Tell(message) => window.untaken(message, place),
        _ => None,
    }
}

/// Adds what is drawn of the stub of what the entry sends or tells, where nobody takes it.
fn push_stub(
    shapes: &mut Vec<Shape>,
    window: &Window,
    sources: &[Option<usize>],
    taken: &PlaceSet,
    standing: &[bool],
    moment: &Columns,
    place: usize,
    entry: &Entry,
) -> Result<(), AllocError>
    requires { AreTaken sources.now taken.now }
    ensures { OnOk result
        (shapes.new.items ≡ shapes.old.items
        ++ entry_stub window.now sources.now standing.now moment.now place entry.now) }
{
    // the contract alone names the sources, as those of what is taken
    let _sources = sources;
    if taken.contains(&place) {
        return Ok(());
    }
    let member = entry.member();
    let undone = is_undone(standing, moment, place, member);
    let stub = stub(window, undone, place, *entry);
    push_in_time(shapes, moment.has_come(place, member), stub)
}

/// Adds the stubs of all messages and control messages that nobody takes.
pub(crate) fn push_stubs(
    shapes: &mut Vec<Shape>,
    alloc: Global,
    window: &Window,
    entries: &[Entry],
    sources: &[Option<usize>],
    standing: &[bool],
    moment: &Columns,
) -> Result<(), AllocError>
    ensures { OnOk result
        (shapes.new.items ≡ shapes.old.items
        ++ drawn (entry_stub window.now sources.now standing.now moment.now) 0 entries.now) }
{
    let taken = taken_places(alloc, sources)?;
    for place in 0..entries.len() {
        push_stub(
            shapes,
            window,
            sources,
            &taken,
            standing,
            moment,
            place,
            &entries[place],
        )?;
    }
    Ok(())
}
