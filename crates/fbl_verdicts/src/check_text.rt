//! What a check says.

ghost use Rattle.std.specs.Prelude.{◌≡◌, ◌++◌, IfOk, OnOk, map, string_bytes};
ghost use Rattle.fbl_verdicts.specs.Lines.{left_line, outcome_line, said_place};
ghost use Rattle.fbl_verdicts.specs.Texts.{AddsLine, AddsMoment, AddsSpot, AddsUndone, AddsUnsafe, AreCheckLines, AreSaidInOrder, IsChecked, IsCheckText, PutsChecked, says_nothing};
ghost use Rattle.fbl_verdicts.specs.declared.check_text.Said.TheVariants.{Undone, Unsafe};

use crate::audit_text::push_numbers;
use fbl_input::{OutputFault, push_set, put};
use fbl_judge::{Pasts, UndoneReceipt, UnsafeReceipt, undone_receipts, unsafe_receipts};
use fbl_runs::{Sources, spot_text};
use fbl_trace::MemberSet;
use std::alloc::{AllocError, Global};
use std::io::Write;

/// What a check says of the receipts of a run, in the order of its entries.
#[derive(Drop)]
pub struct Checked {
    /// The receipts that are unsafe where the run is judged.
    pub unsafe_receipts: Vec<UnsafeReceipt>,
    /// Those that a restart undid, and that leave orphans at the end.
    pub undone_receipts: Vec<UndoneReceipt>,
}

impl Checked {
    /// Whether there is nothing to say.
    pub fn is_safe(&self) -> bool
        ensures { result ≡ says_nothing self.now }
    {
        self.unsafe_receipts.is_empty() && self.undone_receipts.is_empty()
    }
}

/// What a check says of one receipt.
#[derive(Clone, Copy)]
pub(crate) enum Said {
    /// It is unsafe.
    Unsafe(UnsafeReceipt),
    /// A restart undid it, and it leaves orphans.
    Undone(UndoneReceipt),
}

impl Said {
    /// The place of the receipt.
    fn place(&self) -> usize
        ensures { result ≡ said_place self.now }
    {
        match self {
            Said::Unsafe(receipt) => receipt.place,
            Said::Undone(receipt) => receipt.place,
        }
    }
}

/// Writes where an entry stands.
fn push_spot(
    text: &mut String,
    alloc: Global,
    sources: &Sources<'_>,
    place: usize,
) -> Result<(), AllocError>
    ensures { OnOk result (AddsSpot sources.now place (string_bytes text.old) (string_bytes text.new)) }
{
    let spot = spot_text(alloc, sources, place)?;
    Ok(write!(text, " at {spot}")?)
}

/// Writes where the moment of an unsafe receipt stands, if the run is judged at each.
fn push_moment(
    text: &mut String,
    alloc: Global,
    sources: &Sources<'_>,
    at: Option<usize>,
) -> Result<(), AllocError>
    ensures { OnOk result (AddsMoment sources.now at (string_bytes text.old) (string_bytes text.new)) }
{
    match at {
        Some(place) => push_spot(text, alloc, sources, place),
        None => Ok(()),
    }
}

/// Writes the end of the line of an unsafe receipt: the members lost with it, and the orphans then.
fn push_outcome(
    text: &mut String,
    alloc: Global,
    strike: MemberSet,
    orphans: MemberSet,
) -> Result<(), AllocError>
    ensures { OnOk result (string_bytes text.new ≡ string_bytes text.old ++ outcome_line strike orphans) }
{
    push_set(text, alloc, " strike ", strike)?;
    push_set(text, alloc, " orphans ", orphans)?;
    Ok(text.push_str("\n")?)
}

/// Writes the end of the line of an undone receipt: the orphans.
fn push_left(text: &mut String, alloc: Global, orphans: MemberSet) -> Result<(), AllocError>
    ensures { OnOk result (string_bytes text.new ≡ string_bytes text.old ++ left_line orphans) }
{
    push_set(text, alloc, " orphans ", orphans)?;
    Ok(text.push_str("\n")?)
}

/// Writes the line of an unsafe receipt: its determinant, the moment, the members lost with it then, and the orphans.
fn push_unsafe(
    text: &mut String,
    alloc: Global,
    sources: &Sources<'_>,
    receipt: &UnsafeReceipt,
) -> Result<(), AllocError>
    ensures { OnOk result (AddsUnsafe sources.now receipt.now (string_bytes text.old) (string_bytes text.new)) }
{
    push_numbers(text, "unsafe", receipt.determinant)?;
    push_moment(text, alloc, sources, receipt.at)?;
    push_outcome(text, alloc, receipt.strike, receipt.orphans)
}

/// Writes the line of an undone receipt: its determinant, the restart that undid it, and the orphans at the end.
fn push_undone(
    text: &mut String,
    alloc: Global,
    sources: &Sources<'_>,
    receipt: &UndoneReceipt,
) -> Result<(), AllocError>
    ensures { OnOk result (AddsUndone sources.now receipt.now (string_bytes text.old) (string_bytes text.new)) }
{
    push_numbers(text, "undone", receipt.determinant)?;
    push_spot(text, alloc, sources, receipt.at)?;
    push_left(text, alloc, receipt.orphans)
}

/// Writes the line of what is said of a receipt.
fn push_said(
    text: &mut String,
    alloc: Global,
    sources: &Sources<'_>,
    said: &Said,
) -> Result<(), AllocError>
    ensures { OnOk result (AddsLine sources.now said.now (string_bytes text.old) (string_bytes text.new)) }
{
    match said {
        Said::Unsafe(receipt) => push_unsafe(text, alloc, sources, receipt),
        Said::Undone(receipt) => push_undone(text, alloc, sources, receipt),
    }
}

/// What is said of these: first of all that are unsafe, and then of those that are undone.
fn all_said(
    alloc: Global,
    unsafe_receipts: &[UnsafeReceipt],
    undone_receipts: &[UndoneReceipt],
) -> Result<Vec<Said>, AllocError>
    ensures { IfOk result (λ v. v.items ≡ map Unsafe unsafe_receipts.now ++ map Undone undone_receipts.now) }
{
    let mut said = Vec::new(alloc);
    for receipt in unsafe_receipts {
        said.push(Said::Unsafe(*receipt))?;
    }
    for undone in undone_receipts {
        said.push(Said::Undone(*undone))?;
    }
    Ok(said)
}

/// What is said of the receipts, in their order; of one receipt first that it is unsafe.
fn said_in_order(alloc: Global, checked: &Checked) -> Result<Vec<Said>, AllocError>
    ensures { IfOk result (λ v. AreSaidInOrder checked.now v.items) }
{
    let unsafe_receipts = checked.unsafe_receipts.as_slice();
    let undone_receipts = checked.undone_receipts.as_slice();
    let mut said = all_said(alloc, unsafe_receipts, undone_receipts)?;
    said.sort_by_key(|one| one.place())?;
    Ok(said)
}

/// The lines of what is said.
fn lines_text(alloc: Global, sources: &Sources<'_>, said: &[Said]) -> Result<String, AllocError>
    ensures { IfOk result (λ text. AreCheckLines sources.now said.now (string_bytes text)) }
{
    let mut text = String::new(alloc);
    for one in said {
        push_said(&mut text, alloc, sources, one)?;
    }
    Ok(text)
}

/// What a check says.
fn check_text(alloc: Global, sources: &Sources<'_>, checked: &Checked) -> Result<String, AllocError>
    ensures { IfOk result (λ text. IsCheckText sources.now checked.now (string_bytes text)) }
{
    if checked.is_safe() {
        return String::from_str(alloc, "safe\n");
    }
    let said = said_in_order(alloc, checked)?;
    lines_text(alloc, sources, said.as_slice())
}

/// What a check finds of the run.
fn checked_run(alloc: Global, pasts: &Pasts<'_>) -> Result<Checked, AllocError>
    ensures { IfOk result (IsChecked pasts.now) }
{
    Ok(Checked {
        unsafe_receipts: unsafe_receipts(alloc, pasts)?,
        undone_receipts: undone_receipts(alloc, pasts)?,
    })
}

/// Checks the run where it is judged, and writes a line for each receipt that some members may lose there with an orphan left, and for each
/// that a restart undid and that leaves an orphan at the end; or that there is neither. Answers these receipts.
pub fn write_check<W: Write>(
    alloc: Global,
    pasts: &Pasts<'_>,
    sources: &Sources<'_>,
    writer: &mut W,
) -> Result<Checked, OutputFault>
    ensures { PutsChecked pasts.now sources.now (W.contents writer.old) (W.contents writer.new) result }
{
    let checked = checked_run(alloc, pasts)?;
    let text = check_text(alloc, sources, &checked)?;
    put(writer, text.as_bytes())?;
    Ok(checked)
}
