//! What an audit says.

ghost use Rattle.std.specs.Prelude.{◌≡◌, ◌++◌, IfOk, IfSome, OnOk, map, string_bytes};
ghost use Rattle.std.specs.List.{flat_map};
ghost use Rattle.fbl_input.specs.Faults.{PutsOut};
ghost use Rattle.fbl_verdicts.specs.Lines.{audit_lines, determinant_line, determinant_words};
ghost use Rattle.fbl_input.specs.Lines.{orphans_line};
ghost use Rattle.fbl_verdicts.specs.Texts.{Audits, IsAuditText, PutsAudit};

use fbl_base::audit::{lost, orphans};
use fbl_input::{OutputFault, RunFault, push_set, put};
use fbl_judge::{Audit, LostReceipt};
use fbl_records::read_dump;
use fbl_trace::{Determinant, Dump, MemberSet};
use std::alloc::{AllocError, Global};
use std::io::{Read, Write};

/// Writes the name, and the numbers of a determinant, each behind a space.
pub(crate) fn push_numbers(
    text: &mut String,
    name: &str,
    determinant: Determinant,
) -> Result<(), AllocError>
    ensures { OnOk result (string_bytes text.new ≡ string_bytes text.old ++ name.now ++ determinant_words determinant) }
{
    let from = determinant.from.number();
    let ssn = determinant.ssn;
    let to = determinant.to.number();
    let rsn = determinant.rsn;
    Ok(write!(text, "{name} {from} {ssn} {to} {rsn}")?)
}

/// Writes the line of a lost determinant.
fn push_lost(text: &mut String, determinant: Determinant) -> Result<(), AllocError>
    ensures { OnOk result (string_bytes text.new ≡ string_bytes text.old ++ determinant_line determinant) }
{
    push_numbers(text, "determinant", determinant)?;
    Ok(text.push_str("\n")?)
}

/// Writes the line of each determinant.
fn push_determinants(text: &mut String, lost: &[Determinant]) -> Result<(), AllocError>
    ensures { OnOk result (string_bytes text.new ≡ string_bytes text.old ++ flat_map determinant_line lost.now) }
{
    for determinant in lost {
        push_lost(text, *determinant)?;
    }
    Ok(())
}

/// Writes the line of the orphans.
fn push_orphans(text: &mut String, alloc: Global, orphans: MemberSet) -> Result<(), AllocError>
    ensures { OnOk result (string_bytes text.new ≡ string_bytes text.old ++ orphans_line orphans) }
{
    push_set(text, alloc, "orphans ", orphans)?;
    Ok(text.push_str("\n")?)
}

/// The lines of an audit: how many receipts are lost, the determinant of each, and the orphans.
fn audit_text(alloc: Global, lost: &[Determinant], orphans: MemberSet) -> Result<String, AllocError>
    ensures { IfOk result (λ text. string_bytes text ≡ audit_lines lost.now orphans) }
{
    let count = lost.len();
    let mut text = format!(in alloc; "lost {count}\n")?;
    push_determinants(&mut text, lost)?;
    push_orphans(&mut text, alloc, orphans)?;
    Ok(text)
}

/// Writes these lines of an audit.
fn write_lines<W: Write>(
    alloc: Global,
    lost: &[Determinant],
    orphans: MemberSet,
    writer: &mut W,
) -> Result<(), OutputFault>
    ensures { PutsOut (λ _ text. text ≡ audit_lines lost.now orphans) (W.contents writer.old) (W.contents writer.new) result }
{
    let text = audit_text(alloc, lost, orphans)?;
    put(writer, text.as_bytes())
}

/// What names these receipts.
fn determinants(alloc: Global, lost: &[LostReceipt]) -> Result<Vec<Determinant>, AllocError>
    ensures { IfOk result (λ v. v.items ≡ map (λ l. l.determinant) lost.now) }
{
    let mut determinants = Vec::new(alloc);
    for receipt in lost {
        determinants.push(receipt.determinant)?;
    }
    Ok(determinants)
}

/// Writes what an audit found: how many receipts are lost, the determinant of each, and the orphans.
pub fn write_audit<W: Write>(
    alloc: Global,
    audit: &Audit,
    writer: &mut W,
) -> Result<(), OutputFault>
    ensures { PutsAudit audit.now (W.contents writer.old) (W.contents writer.new) result }
{
    let lost = determinants(alloc, audit.lost.as_slice())?;
    write_lines(alloc, lost.as_slice(), audit.orphans, writer)
}

/// Audits the dump, and writes what the audit found.
fn write_dump_audit<W: Write>(alloc: Global, dump: &Dump, writer: &mut W) -> Result<(), OutputFault>
    ensures { PutsOut (λ _. IsAuditText dump.now) (W.contents writer.old) (W.contents writer.new) result }
{
    let lost = lost(alloc, dump)?;
    let orphans = orphans(alloc, dump)?;
    write_lines(alloc, lost.as_slice(), orphans, writer)
}

/// Audits the dump that the reader has. Nothing is written where the fault is another than `Write`.
pub fn audit<R: Read, W: Write>(
    alloc: Global,
    reader: &mut R,
    writer: &mut W,
) -> Result<(), RunFault>
    ensures { IfSome (R.remaining reader.old) (λ input. Audits input (W.contents writer.old) (W.contents writer.new) result) }
{
    let dump = read_dump(alloc, reader)?;
    Ok(write_dump_audit(alloc, &dump, writer)?)
}
