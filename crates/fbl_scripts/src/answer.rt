//! What commands answer, and the lines that they print.

ghost use Rattle.std.specs.Prelude.{◌≡◌, ◌<◌, ◌++◌, ◌∷◌, [], IfOk, OnOk, codes, decimal, string_bytes};
ghost use Rattle.fbl_law.specs.Promises.{dump_of};
ghost use Rattle.fbl_scripts.specs.Reasons.{is_refusal as is_refusal_of};
ghost use Rattle.fbl_scripts.specs.Texts.{AreTotals, IsReport, IsText, delivery_line, end_word as end_word_of, member_line, recovery_line, refusal_line, states_line, total_lines};
ghost use Rattle.fbl_input.specs.Lines.{line};
ghost use Rattle.fbl_input.specs.Lines.{set_words};

use crate::reason::RefusalReason;
use fbl_base::audit::{Dump, audit_of};
use fbl_group::{DumpGroupRefusal, Group, Receipted, Recovered, Struck};
use fbl_input::set_text;
use fbl_records::dump_text;
use fbl_threads::{Drained, RecordedDrain};
use fbl_trace::{Behaviour, Determinant, Member, MemberSet, Note, PlanFault};
use std::alloc::{AllocError, Global};

/// What a command did: what its lines say, before it is text, and what they don't. The states and the report are those of the
/// group that it leaves.
#[derive(Drop)]
pub enum Answer {
    /// The receipt of a message to one member from another.
    Delivery {
        to: Member,
        from: Member,
        receipt: Receipted,
    },
    States,
    Report,
    /// The strike of these members, the receipts that it loses, in the order of the trace, and how many others were lost before it.
    Strike {
        members: MemberSet,
        struck: Struck,
        receipts: Vec<Determinant>,
        before: usize,
    },
    /// The recovery of these members, which were down, and the receipts that it undoes, in the order of the trace.
    Recovery {
        members: MemberSet,
        recovered: Recovered,
        undone: Vec<Determinant>,
    },
    Dump(Dump),
    /// The run by workers, with their turns, and how many receipts the group ever made and undid before it and after it.
    Run {
        recorded: RecordedDrain,
        made_before: u64,
        made_after: u64,
        undone_before: u64,
        undone_after: u64,
    },
    /// The checkpoint of this member, which had received so many messages.
    Checkpoint {
        member: Member,
        received: u32,
    },
    /// The refusal of a command, by its name and the refusal's.
    Refusal {
        command: &'static str,
        refusal: &'static str,
        reason: RefusalReason,
    },
}

impl Answer {
    /// Whether the command was refused.
    pub fn is_refusal(&self) -> bool
        ensures { result ≡ is_refusal_of self.now }
    {
        matches!(self, Answer::Refusal { .. })
    }

    /// The lines, where the command left the group like this. `Err` comes only where there is no memory for them.
    pub fn text<B: Behaviour<State = u64, Note = Note>>(
        &self,
        alloc: Global,
        group: &Group<B>,
    ) -> Result<String, AllocError>
        ensures { IfOk result (λ text. IsText group.now self.now (string_bytes text)) }
    {
        match self {
            Answer::Delivery { to, from, receipt } => delivery_text(alloc, *to, *from, receipt),
            Answer::States => states_text(alloc, group),
            Answer::Report => report_text(alloc, group),
            Answer::Strike {
                members,
                struck,
                ..
            } => strike_text(alloc, *members, struck),
            Answer::Recovery { recovered, .. } => recovery_text(alloc, recovered),
            Answer::Dump(dump) => dump_text(alloc, dump),
            Answer::Run { recorded, .. } => {
                let word = end_word(&recorded.drained);
                format!(in alloc; "run {word}\n")
            }
            Answer::Checkpoint { member, received } => {
                let number = member.number();
                format!(in alloc; "checkpoint {number} receipt {received}\n")
            }
            Answer::Refusal {
                command,
                refusal,
                reason,
            } => refusal_text(alloc, command, refusal, reason),
        }
    }
}

fn delivery_text(
    alloc: Global,
    to: Member,
    from: Member,
    receipt: &Receipted,
) -> Result<String, AllocError>
    ensures { IfOk result (λ text. string_bytes text ≡ delivery_line to from receipt.now) }
{
    let to = to.number();
    let from = from.number();
    let Receipted {
        rsn,
        carried,
        state,
    } = *receipt;
    format!(in alloc; "deliver {to} {from} receipt {rsn} carried {carried} state {state}\n")
}

fn strike_text(alloc: Global, members: MemberSet, struck: &Struck) -> Result<String, AllocError>
    ensures { IfOk result (λ text. string_bytes text
        ≡ line (codes "strike " ∷ set_words members ∷ codes " lost " ∷ decimal struck.now.lost
        ∷ [])) }
{
    let set = set_text(alloc, members)?;
    let lost = struck.lost;
    format!(in alloc; "strike {set} lost {lost}\n")
}

fn recovery_text(alloc: Global, recovered: &Recovered) -> Result<String, AllocError>
    ensures { IfOk result (λ text. string_bytes text ≡ recovery_line recovered.now) }
{
    let Recovered {
        replayed,
        resent,
        undone,
    } = *recovered;
    format!(in alloc; "recover replayed {replayed} resent {resent} undone {undone}\n")
}

/// How a run ended: with nothing in flight and nobody down, else with a worker that met the end of the trace's room, or neither.
fn end_word(drained: &Drained) -> &'static str
    ensures { result.now ≡ end_word_of drained.now }
{
    if drained.quiet {
        "quiet"
    } else if drained.full {
        "full"
    } else {
        "stopped"
    }
}

/// The line of a refused command; that of a refused plan has the place of its bad entry.
fn refusal_text(
    alloc: Global,
    command: &str,
    refusal: &str,
    reason: &RefusalReason,
) -> Result<String, AllocError>
    ensures { IfOk result (λ text. string_bytes text ≡ refusal_line command.now refusal.now reason.now) }
{
    match reason {
        RefusalReason::BadPlan(PlanFault { place, .. }) => {
            format!(in alloc; "{command} refused {refusal} {place}\n")
        }
        _ => format!(in alloc; "{command} refused {refusal}\n"),
    }
}

fn states_text<B: Behaviour<State = u64, Note = Note>>(
    alloc: Global,
    group: &Group<B>,
) -> Result<String, AllocError>
    ensures { IfOk result (λ text. string_bytes text ≡ states_line group.now) }
{
    let mut text = String::from_str(alloc, "states")?;
    for number in 0..group.config().members() {
        let member = Member::at(number);
        if group.down().has(member) {
            text.push_str(" -")?;
        } else {
            let state = group.state(member);
            write!(text, " {state}")?;
        }
    }
    text.push_str("\n")?;
    Ok(text)
}

fn push_member<B: Behaviour<State = u64, Note = Note>>(
    text: &mut String,
    group: &Group<B>,
    member: Member,
) -> Result<(), AllocError>
    requires { member < group.now.config.members }
    ensures { OnOk result (string_bytes text.new ≡ string_bytes text.old ++ member_line group.now member) }
{
    let number = member.number();
    if group.down().has(member) {
        return write!(text, "member {number} down\n");
    }
    let state = group.state(member);
    let received = group.received(member);
    let sent = group.sent(member);
    let held = group.held(member);
    write!(
        text,
        "member {number} up state {state} received {received} sent {sent} held {held}\n"
    )
}

/// What a report says of the whole group.
#[derive(Clone, Copy)]
struct Totals {
    /// How many messages are in channels.
    flight: usize,
    /// How many events the trace has.
    trace: usize,
    /// How many receipts no table of a member that is up has.
    lost: usize,
    /// The members that are up and depend on a lost receipt.
    orphans: MemberSet,
}

fn totals_of<B: Behaviour<State = u64, Note = Note>>(
    alloc: Global,
    group: &Group<B>,
) -> Result<Totals, AllocError>
    ensures { IfOk result (AreTotals group.now) }
{
    match group.dump(group.down()) {
        Ok(dump) => totals_in(alloc, group, &dump),
        Err(DumpGroupRefusal::Memory) => Err(AllocError),
        Err(DumpGroupRefusal::BadStrike) => unreachable!(),
    }
}

fn totals_in<B: Behaviour<State = u64, Note = Note>>(
    alloc: Global,
    group: &Group<B>,
    dump: &Dump,
) -> Result<Totals, AllocError>
    requires { dump.now ≡ dump_of group.now group.now.down }
    ensures { IfOk result (AreTotals group.now) }
{
    let audit = audit_of(alloc, dump)?;
    Ok(Totals {
        flight: group.messages_in_flight(),
        trace: group.trace().len(),
        lost: audit.lost.len(),
        orphans: audit.orphans,
    })
}

fn push_totals(text: &mut String, alloc: Global, totals: &Totals) -> Result<(), AllocError>
    ensures { OnOk result (string_bytes text.new ≡ string_bytes text.old ++ total_lines totals.now) }
{
    let Totals {
        flight,
        trace,
        lost,
        orphans,
    } = *totals;
    let orphans = set_text(alloc, orphans)?;
    write!(
        text,
        "flight {flight}\ntrace {trace}\nlost {lost}\norphans {orphans}\n"
    )
}

fn report_text<B: Behaviour<State = u64, Note = Note>>(
    alloc: Global,
    group: &Group<B>,
) -> Result<String, AllocError>
    ensures { IfOk result (λ text. IsReport group.now (string_bytes text)) }
{
    let totals = totals_of(alloc, group)?;
    let mut text = String::new(alloc);
    for number in 0..group.config().members() {
        push_member(&mut text, group, Member::at(number))?;
    }
    push_totals(&mut text, alloc, &totals)?;
    Ok(text)
}
