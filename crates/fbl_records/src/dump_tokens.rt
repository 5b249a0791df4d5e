//! Dumps read from the tokens of their text.

ghost use Rattle.std.specs.Prelude.{◌≡◌, ◌∷◌, List, Ok, Some, true, IfOk, IfSome};
ghost use Rattle.json.specs.Token.{begin_array};
ghost use Rattle.json.specs.Json.{after_end_array};
ghost use Rattle.serde_json.specs.Data.{Data, Members, object, put};
ghost use Rattle.fbl_trace.specs.Dumps.{parts_of};
ghost use Rattle.fbl_input.specs.Items.{receipt_named, send_from};
ghost use Rattle.fbl_input.specs.Shapes.{byte_shape, count_shape, list_of, member_shape, number_within, set_shape};
ghost use Rattle.fbl_records.specs.Dumps.{parts_of_data};
ghost use Rattle.fbl_records.specs.DumpTokens.{AreFieldsOf, AreNext, IsDumpText, IsNext, IsNextOf, IsNumberNext};
ghost use Rattle.fbl_runs.specs.declared.entry.Entry.TheVariants.{Event};

use fast_float::Numeral;
use fbl_input::Key;
use fbl_trace::{Determinant, Mark, Member, MemberSet, RawDump};
use json::{Reader, Scratch, Token};
use std::alloc::{AllocError, Global};

/// The number that comes next, if one does that is at most this.
fn next_number(reader: &mut Reader<'_>, most: u64) -> Option<u64>
    ensures { IfSome result (λ n. IsNumberNext (number_within 0 most) reader.old n reader.new) }
{
    let Token::Number(text) = reader.next()? else {
        return None;
    };
    let digits = text.as_bytes();
    let first = *digits.first()?;
    if first == b'-' {
        return None;
    }
    let number = Numeral::scan(digits).to_u64()?;
    if number <= most { Some(number) } else { None }
}

fn next_byte(reader: &mut Reader<'_>) -> Option<u8>
    ensures { IfSome result (λ n. IsNumberNext byte_shape reader.old n reader.new) }
{
    let number = next_number(reader, u64::from(u8::MAX))?;
    Some(number as u8)
}

fn next_count(reader: &mut Reader<'_>) -> Option<u32>
    ensures { IfSome result (λ n. IsNumberNext count_shape reader.old n reader.new) }
{
    let number = next_number(reader, u64::from(u32::MAX))?;
    Some(number as u32)
}

fn next_member(reader: &mut Reader<'_>) -> Option<Member>
    ensures { IfSome result (λ n. IsNumberNext member_shape reader.old n reader.new) }
{
    let number = next_number(reader, 15)?;
    Member::new(number as u8)
}

fn begin_list(reader: &mut Reader<'_>) -> Option<()>
    ensures { IfSome result (λ _. reader.old ≡ begin_array ∷ reader.new) }
{
    match reader.next()? {
        Token::BeginArray => Some(()),
        _ => None,
    }
}

fn end_list(reader: &mut Reader<'_>) -> Option<()>
    ensures { IfSome result (λ _. after_end_array reader.old ≡ Some reader.new) }
{
    if reader.take_end_array() {
        Some(())
    } else {
        None
    }
}

/// How an item of a list is read from its tokens.
trait TokenShape<T> {
    ghost use Rattle.std.specs.Prelude.{Option, IfSome};
    ghost use Rattle.serde_json.specs.Data.{Data};
    ghost use Rattle.fbl_records.specs.DumpTokens.{IsNextOf};

    ghost shape: { Data → Option T };

    /// The item that comes next, if one does.
    fn next(reader: &mut Reader<'_>) -> Option<T>
        ensures { IfSome result (λ x. IsNextOf 125 shape reader.old x reader.new) };
}

struct PairTokens;

impl TokenShape<(Member, Determinant)> for PairTokens {
    ghost use Rattle.fbl_input.specs.Items.{pair_shape};

    ghost shape = { pair_shape };

    fn next(reader: &mut Reader<'_>) -> Option<(Member, Determinant)> {
        begin_list(reader)?;
        let holder = next_member(reader)?;
        let from = next_member(reader)?;
        let ssn = next_count(reader)?;
        let to = next_member(reader)?;
        let rsn = next_count(reader)?;
        end_list(reader)?;
        Some((holder, Determinant { from, ssn, to, rsn }))
    }
}

fn next_send(reader: &mut Reader<'_>) -> Option<Mark>
    ensures { IfSome result (λ event. (ds : List Data) × AreNext 124 reader.old ds reader.new
        × (send_from ds ≡ Some (Event event))) }
{
    let from = next_member(reader)?;
    let ssn = next_count(reader)?;
    let to = next_member(reader)?;
    end_list(reader)?;
    Some(Mark::Send { from, ssn, to })
}

fn next_receipt(reader: &mut Reader<'_>) -> Option<Mark>
    ensures { IfSome result (λ event. (ds : List Data) × AreNext 124 reader.old ds reader.new
        × (receipt_named ds ≡ Some (Event event))) }
{
    let to = next_member(reader)?;
    let rsn = next_count(reader)?;
    let from = next_member(reader)?;
    let ssn = next_count(reader)?;
    end_list(reader)?;
    Some(Mark::Receipt { to, rsn, from, ssn })
}

struct EventTokens;

impl TokenShape<Mark> for EventTokens {
    ghost use Rattle.fbl_input.specs.Items.{event_shape};

    ghost shape = { event_shape };

    fn next(reader: &mut Reader<'_>) -> Option<Mark> {
        begin_list(reader)?;
        let Token::String(name) = reader.next()? else {
            return None;
        };
        if name == "send" {
            return next_send(reader);
        }
        if name == "receipt" {
            return next_receipt(reader);
        }
        None
    }
}

struct MemberTokens;

impl TokenShape<Member> for MemberTokens {
    ghost use Rattle.fbl_input.specs.Shapes.{member_shape};

    ghost shape = { member_shape };

    fn next(reader: &mut Reader<'_>) -> Option<Member> {
        next_member(reader)
    }
}

fn next_list<T: Copy, S: TokenShape<T>>(
    alloc: Global,
    reader: &mut Reader<'_>,
) -> Result<Option<Vec<T>>, AllocError>
    ensures { IfOk result (λ found. IfSome found (λ all. IsNextOf 126 (list_of S.shape) reader.old all.items reader.new)) }
{
    let Some(()) = begin_list(reader) else {
        return Ok(None);
    };
    let mut all = Vec::new(alloc);
    while !reader.take_end_array() {
        match S::next(reader) {
            Some(item) => all.push(item)?,
            None => return Ok(None),
        }
    }
    Ok(Some(all))
}

fn next_set(alloc: Global, reader: &mut Reader<'_>) -> Result<Option<MemberSet>, AllocError>
    ensures { IfOk result (λ found. IfSome found (λ set. IsNextOf 126 set_shape reader.old set reader.new)) }
{
    let Some(members) = next_list::<Member, MemberTokens>(alloc, reader)? else {
        return Ok(None);
    };
    let mut set = MemberSet::empty();
    for member in &members {
        set = set.with(*member);
    }
    Ok(Some(set))
}

/// What is read so far of the fields of a dump.
#[derive(Drop)]
struct Fields {
    members: Option<u8>,
    f: Option<u8>,
    events: Option<Vec<Mark>>,
    held: Option<Vec<(Member, Determinant)>>,
    strike: Option<MemberSet>,
}

impl Fields {
    /// Reads the value at the key, and answers whether it is that of a dump.
    fn take(
        &mut self,
        alloc: Global,
        key: &str,
        reader: &mut Reader<'_>,
    ) -> Result<bool, AllocError>
        ensures { IfOk result (λ is. is ≡ true → (d : Data) × IsNext 126 reader.old d reader.new
            × ((ms : Members) → AreFieldsOf ms self.old → AreFieldsOf (put key.now d ms) self.new)) }
    {
        if key == Key::Members.name() {
            self.members = next_byte(reader);
            return Ok(self.members.is_some());
        }
        if key == Key::F.name() {
            self.f = next_byte(reader);
            return Ok(self.f.is_some());
        }
        if key == Key::Events.name() {
            self.events = next_list::<Mark, EventTokens>(alloc, reader)?;
            return Ok(self.events.is_some());
        }
        if key == Key::Held.name() {
            self.held = next_list::<_, PairTokens>(alloc, reader)?;
            return Ok(self.held.is_some());
        }
        if key == Key::Strike.name() {
            self.strike = next_set(alloc, reader)?;
            return Ok(self.strike.is_some());
        }
        Ok(false)
    }

    /// The dump that has these fields, if it has all of them.
    fn dump(self) -> Option<RawDump>
        ensures { IfSome result (λ raw. (ms : Members) → AreFieldsOf ms self → parts_of_data (object ms) ≡ Ok (parts_of raw)) }
    {
        let Fields {
            members,
            f,
            events,
            held,
            strike,
        } = self;
        Some(RawDump {
            members: members?,
            f: f?,
            events: events?,
            held: held?,
            strike: strike?,
        })
    }
}

/// The fields of the object that comes next, if they are those of a dump.
fn next_fields(alloc: Global, reader: &mut Reader<'_>) -> Result<Option<Fields>, AllocError>
    ensures { IfOk result (λ found. IfSome found (λ fields. (ms : Members)
        × IsNext 127 reader.old (object ms) reader.new × AreFieldsOf ms fields)) }
{
    let mut fields = Fields {
        members: None,
        f: None,
        events: None,
        held: None,
        strike: None,
    };
    let Some(Token::BeginObject) = reader.next() else {
        return Ok(None);
    };
    loop {
        match reader.next_key() {
            Ok(Some(key)) => {
                if !fields.take(alloc, key, reader)? {
                    return Ok(None);
                }
            }
            Ok(None) => return Ok(Some(fields)),
            Err(_) => return Ok(None),
        }
    }
}

/// The dump that the text spells, its rules not yet checked, if it has the form of one. None is found of any other text, which is then
/// read as a value for what is wrong with it.
pub(crate) fn dump_in_tokens(alloc: Global, input: &[u8]) -> Result<Option<RawDump>, AllocError>
    ensures { IfOk result (λ found. IfSome found (IsDumpText input.now)) }
{
    let Ok(text) = simdutf8::compat::from_utf8(input) else {
        return Ok(None);
    };
    let mut scratch = Scratch::new(alloc);
    let mut reader = Reader::new(text, &mut scratch)?;
    let Some(fields) = next_fields(alloc, &mut reader)? else {
        return Ok(None);
    };
    match reader.next() {
        None => Ok(fields.dump()),
        Some(_) => Ok(None),
    }
}
