//! A dump or a log as one line of JSON.

ghost use Rattle.std.specs.Prelude.{◌≡◌, ◌∷◌, [], map, suc, IfOk, OnOk, string_bytes};
ghost use Rattle.json.specs.Token.{key};
ghost use Rattle.json.specs.Tree.{items_tokens, json_tokens};
ghost use Rattle.serde_json.specs.Data.{Data, string};
ghost use Rattle.serde_json.specs.View.{items_of};
ghost use Rattle.serde_json.specs.Written.{items_outline, outline};
ghost use Rattle.fbl_input.specs.Shapes.{list_of};
ghost use Rattle.fbl_records.specs.DumpLines.{Appends, AppendsTokens, AreReadBack, IsDumpRead, IsLineOf, IsReadBack, IsSpelled, dump_data, dump_line, ReadsBack, event_data, list_data, number_data};
ghost use Rattle.fbl_records.specs.LogLines.{IsLogRead, LogReadsBack, log_data, log_line};

use fbl_runs::{Entry, Restart, Run};
use fbl_trace::{Determinant, Dump, Mark, Member, MemberSet};
use json::Writer;
use std::alloc::{AllocError, Global};

/// How a value of a type is written as JSON, from which it is read back, and how deep that nests at most.
trait Form<T> {
    ghost use Rattle.std.specs.Prelude.{ℕ, Option, OnOk};
    ghost use Rattle.serde_json.specs.Data.{Data};
    ghost use Rattle.fbl_records.specs.DumpLines.{Appends, IsReadBack};

    ghost form: { T → Data };

    ghost shape: { Data → Option T };

    ghost depth: { ℕ };

    /// Writes the item.
    fn write(out: &mut Writer, item: T) -> Result<(), AllocError>
        ensures written { OnOk result (Appends (form item) out.old out.new) }
        ensures reads_back { OnOk result (IsReadBack form shape depth item) };
}

/// The numbers of a member and of a determinant.
fn pair_numbers(member: Member, determinant: Determinant) -> [u32; 5]
    ensures { result ≡ member ∷ determinant.from ∷ determinant.ssn ∷ determinant.to ∷ determinant.rsn ∷ [] }
{
    let Determinant { from, ssn, to, rsn } = determinant;
    let member = u32::from(member.number());
    [
        member,
        u32::from(from.number()),
        ssn,
        u32::from(to.number()),
        rsn,
    ]
}

/// The numbers of two members and of a control message between them.
fn control_numbers(own: Member, other: Member, id: u32) -> [u32; 3]
    ensures { result ≡ own ∷ other ∷ id ∷ [] }
{
    [u32::from(own.number()), u32::from(other.number()), id]
}

/// The numbers of a receipt that names a life of its sender.
fn later_receipt_numbers(determinant: Determinant, life: u32) -> [u32; 5]
    ensures { result ≡ determinant.to ∷ determinant.rsn ∷ determinant.from ∷ determinant.ssn ∷ life ∷ [] }
{
    let Determinant { from, ssn, to, rsn } = determinant;
    [
        u32::from(to.number()),
        rsn,
        u32::from(from.number()),
        ssn,
        life,
    ]
}

/// The numbers of a restart.
fn restart_numbers(restart: Restart) -> [u32; 4]
    ensures { result ≡ restart.member ∷ restart.life ∷ restart.receipts ∷ restart.sends ∷ [] }
{
    let Restart {
        member,
        life,
        receipts,
        sends,
    } = restart;
    [u32::from(member.number()), life, receipts, sends]
}

/// An entry as a list.
struct EntryForm;

impl Form<Entry> for EntryForm {
    ghost use Rattle.fbl_input.specs.Items.{entry_shape};
    ghost use Rattle.fbl_records.specs.DumpLines.{entry_data};

    ghost form = { entry_data };

    ghost shape = { entry_shape };

    ghost depth = { 1 };

    fn write(out: &mut Writer, entry: Entry) -> Result<(), AllocError> {
        match entry {
            Entry::Event(event) => EventForm::write(out, event),
            Entry::Hold {
                holder,
                determinant,
            } => write_named(out, "hold", &pair_numbers(holder, determinant)),
            Entry::Store {
                member,
                determinant,
            } => write_named(out, "store", &pair_numbers(member, determinant)),
            Entry::Tell(message) => {
                let numbers = control_numbers(message.from, message.to, message.id);
                write_named(out, "tell", &numbers)
            }
            Entry::Told(message) => {
                let numbers = control_numbers(message.to, message.from, message.id);
                write_named(out, "told", &numbers)
            }
            Entry::LaterReceipt { determinant, life } => {
                let numbers = later_receipt_numbers(determinant, life);
                write_named(out, "receipt", &numbers)
            }
            Entry::Restart(restart) => write_named(out, "restart", &restart_numbers(restart)),
        }
    }
}

/// A send or a receipt as a list.
struct EventForm;

impl Form<Mark> for EventForm {
    ghost use Rattle.fbl_input.specs.Items.{event_shape};
    ghost use Rattle.fbl_records.specs.DumpLines.{event_data};

    ghost form = { event_data };

    ghost shape = { event_shape };

    ghost depth = { 1 };

    fn write(out: &mut Writer, event: Mark) -> Result<(), AllocError> {
        match event {
            Mark::Send { from, ssn, to } => {
                let numbers = [u32::from(from.number()), ssn, u32::from(to.number())];
                write_named(out, "send", &numbers)
            }
            Mark::Receipt { to, rsn, from, ssn } => {
                let numbers = [u32::from(to.number()), rsn, u32::from(from.number()), ssn];
                write_named(out, "receipt", &numbers)
            }
        }
    }
}

/// A held pair as a list.
struct PairForm;

impl Form<(Member, Determinant)> for PairForm {
    ghost use Rattle.fbl_input.specs.Items.{pair_shape};
    ghost use Rattle.fbl_records.specs.DumpLines.{pair_data};

    ghost form = { pair_data };

    ghost shape = { pair_shape };

    ghost depth = { 1 };

    fn write(out: &mut Writer, pair: (Member, Determinant)) -> Result<(), AllocError> {
        write_list::<u32, NumberForm>(out, &pair_numbers(pair.0, pair.1))
    }
}

/// A number as it is.
struct NumberForm;

impl Form<u32> for NumberForm {
    ghost use Rattle.fbl_input.specs.Shapes.{count_shape};
    ghost use Rattle.fbl_records.specs.DumpLines.{number_data};

    ghost form = { number_data };

    ghost shape = { count_shape };

    ghost depth = { 0 };

    #[tactic(auto, using(crate::proofs::Values::number_back))]
    fn write(out: &mut Writer, number: u32) -> Result<(), AllocError> {
        out.u64(u64::from(number))
    }
}

/// A member as its number.
struct MemberForm;

impl Form<Member> for MemberForm {
    ghost use Rattle.fbl_input.specs.Shapes.{member_shape};
    ghost use Rattle.fbl_records.specs.DumpLines.{number_data};

    ghost form = { number_data };

    ghost shape = { member_shape };

    ghost depth = { 0 };

    #[tactic(auto, using(crate::proofs::Values::number_back))]
    fn write(out: &mut Writer, member: Member) -> Result<(), AllocError> {
        out.u64(u64::from(member.number()))
    }
}

/// Writes the items and the end of their list.
fn write_items<T: Copy, F: Form<T>>(out: &mut Writer, items: &[T]) -> Result<(), AllocError>
    ensures written { OnOk result (AppendsTokens (items_tokens (items_outline (items_of (map F.form items.now)))) out.old out.new) }
    ensures reads_back { OnOk result (AreReadBack F.form F.shape F.depth items.now) }
{
    for item in items {
        F::write(out, *item)?;
    }
    out.end_array()
}

/// Writes the items as a list.
#[tactic(auto, using(fbl_input::proofs::Lists::elements_of))]
fn write_list<T: Copy, F: Form<T>>(out: &mut Writer, items: &[T]) -> Result<(), AllocError>
    ensures written { OnOk result (Appends (list_data (map F.form items.now)) out.old out.new) }
    ensures reads_back { OnOk result (IsReadBack (λ xs. list_data (map F.form xs)) (list_of F.shape) (suc F.depth) items.now) }
{
    out.begin_array()?;
    write_items::<T, F>(out, items)
}

/// Writes the numbers as a list that begins with this name.
fn write_named(out: &mut Writer, name: &str, numbers: &[u32]) -> Result<(), AllocError>
    ensures written { OnOk result (Appends (list_data (string name.now ∷ map number_data numbers.now)) out.old out.new) }
    ensures spelled { OnOk result (IsSpelled 1 (list_data (string name.now ∷ map number_data numbers.now))) }
{
    out.begin_array()?;
    out.string(name)?;
    write_items::<u32, NumberForm>(out, numbers)
}

/// Writes a number of an object, at the key of this name.
fn write_number(out: &mut Writer, name: &str, number: u8) -> Result<(), AllocError>
    ensures written { OnOk result (AppendsTokens (key name.now ∷ json_tokens (outline (number_data number))) out.old out.new) }
{
    out.key(name)?;
    out.u64(u64::from(number))
}

/// Writes the items as a list of an object, at the key of this name.
fn write_field<T: Copy, F: Form<T>>(
    out: &mut Writer,
    name: &str,
    items: &[T],
) -> Result<(), AllocError>
    ensures written { OnOk result (AppendsTokens
        (key name.now ∷ json_tokens (outline (list_data (map F.form items.now)))) out.old out.new) }
    ensures reads_back { OnOk result (IsReadBack (λ xs. list_data (map F.form xs)) (list_of F.shape) (suc F.depth) items.now) }
{
    out.key(name)?;
    write_list::<T, F>(out, items)
}

/// Writes a dump as an object, with its keys in the order of their letters.
fn write_dump(out: &mut Writer, alloc: Global, dump: &Dump) -> Result<(), AllocError>
    ensures written { OnOk result (Appends (dump_data dump.now) out.old out.new) }
    ensures reads_back { OnOk result (IsDumpRead dump.now) }
{
    let strike = dump.strike().members(alloc)?;
    out.begin_object()?;
    write_field::<Mark, EventForm>(out, "events", dump.events())?;
    write_number(out, "f", dump.f())?;
    write_field::<_, PairForm>(out, "held", dump.held())?;
    write_number(out, "members", dump.members())?;
    write_field::<Member, MemberForm>(out, "strike", strike.as_slice())?;
    out.end_object()
}

/// Writes a log as an object, with its keys in the order of their letters.
fn write_log(out: &mut Writer, alloc: Global, log: &Run) -> Result<(), AllocError>
    ensures written { OnOk result (Appends (log_data log.now) out.old out.new) }
    ensures reads_back { OnOk result (IsLogRead log.now) }
{
    let strike = log.strike().members(alloc)?;
    out.begin_object()?;
    write_field::<Entry, EntryForm>(out, "events", log.entries())?;
    write_number(out, "f", log.f())?;
    write_number(out, "members", log.members())?;
    write_field::<Member, MemberForm>(out, "strike", strike.as_slice())?;
    write_number(out, "version", 2)?;
    out.end_object()
}

/// What was written, as a line that ends with a newline.
fn line_of(alloc: Global, out: Writer) -> Result<String, AllocError>
    requires { out.before ≡ [] }
    ensures { IfOk result (λ text. (d : Data) → out.tokens ≡ json_tokens (outline d) → IsSpelled 3 d → IsLineOf d text) }
{
    let mut bytes = out.into_inner();
    bytes.push(b'\n')?;
    match String::from_utf8(bytes) {
        Ok(text) => Ok(text),
        Err(_) => Ok(String::new(alloc)),
    }
}

/// The dump as one line of JSON, which ends with a newline. `Err` comes only where there is no memory for it.
pub fn dump_text(alloc: Global, dump: &Dump) -> Result<String, AllocError>
    ensures line { IfOk result (λ text. string_bytes text ≡ dump_line dump.now) }
    ensures reads_back { IfOk result (λ text. ReadsBack dump.now) }
{
    let mut out = Writer::new(Vec::new(alloc));
    write_dump(&mut out, alloc, dump)?;
    line_of(alloc, out)
}

/// The log as one line of JSON, which ends with a newline. `Err` comes only where there is no memory for it.
pub fn log_text(alloc: Global, log: &Run) -> Result<String, AllocError>
    ensures line { IfOk result (λ text. string_bytes text ≡ log_line log.now) }
    ensures reads_back { IfOk result (λ text. LogReadsBack log.now) }
{
    let mut out = Writer::new(Vec::new(alloc));
    write_log(&mut out, alloc, log)?;
    line_of(alloc, out)
}
