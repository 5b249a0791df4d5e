//! Scripts as JSON.

ghost use Rattle.std.specs.Prelude.{◌≡◌, ℕ, List, IfOk, IfErr, IfSome, Ok};
ghost use Rattle.serde_json.specs.View.{view};
ghost use Rattle.serde_json.specs.Find.{get};
ghost use Rattle.fbl_trace.specs.Configs.{IsConfig};
ghost use Rattle.fbl_trace.specs.Steps.{has_few_hops};
ghost use Rattle.fbl_input.specs.Shapes.{Gives, count_shape, field_or, name_of};
ghost use Rattle.fbl_input.specs.declared.key.Key.TheVariants as keys;
ghost use Rattle.fbl_scripts.specs.Scripts.{IsNoScript, IsRequestOf, IsScriptOf, outline, outline_of, outline_of_input, request_outline};

use crate::command_reader::commands_in;
use crate::script::{BehaviourName, Command, Script};
use fbl_input::items::StartShape;
use fbl_input::shapes::{
    ByteShape, JsonShape, count_in, is_named, list_field, no_other_key, object_in, value_field,
    value_in, values_field,
};
use fbl_input::{InputFault, InputKind, Key, RunFault, Version, VersionShape, read_input};
use fbl_runs::LogBreach;
use fbl_trace::{Config, MOST_EVENTS, Start};
use serde_json::Value;
use std::alloc::Global;
use std::io::Read;

/// What a script asks for, before it is known whether there is such a group.
#[derive(Drop)]
pub(crate) struct Request {
    behaviour: BehaviourName,
    members: u8,
    f: u8,
    limit: u32,
    starts: Vec<Start>,
    commands: Vec<Command>,
}

/// A behaviour, by its name.
struct BehaviourShape;

impl JsonShape<BehaviourName> for BehaviourShape {
    ghost use Rattle.fbl_scripts.specs.Scripts.{behaviour_shape};

    ghost shape = { behaviour_shape };

    fn in_value(value: &Value) -> Option<BehaviourName> {
        if is_named(value, "relay") {
            return Some(BehaviourName::Relay);
        }
        if is_named(value, "mix") {
            return Some(BehaviourName::Mix);
        }
        None
    }
}

/// A count, a place or a value.
struct CountShape;

impl JsonShape<u32> for CountShape {
    ghost use Rattle.fbl_input.specs.Shapes.{count_shape};

    ghost shape = { count_shape };

    fn in_value(value: &Value) -> Option<u32> {
        count_in(value)
    }
}

/// The limit, which may be missing: then it is the greatest one.
fn limit_field(value: &Value) -> Result<u32, RunFault>
    ensures { Gives (λ n. n) result (field_or 8192 keys.Limit count_shape (get (name_of keys.Limit) (view value.now))) }
{
    match value.get(Key::Limit.name()) {
        None => Ok(MOST_EVENTS),
        Some(_) => value_field::<u32, CountShape>(value, Key::Limit),
    }
}

/// What a value asks for as a script.
#[tactic(auto, unfolding(crate::specs::Scripts::outline_of, crate::specs::Scripts::outline_by))]
fn request_of(alloc: Global, value: &Value) -> Result<Request, RunFault>
    ensures { Gives request_outline result (outline_of (view value.now)) }
{
    object_in(value)?;
    let version = value_field::<Version, VersionShape>(value, Key::Version)?;
    let members = value_field::<u8, ByteShape>(value, Key::Members)?;
    let f = value_field::<u8, ByteShape>(value, Key::F)?;
    let behaviour = value_field::<_, BehaviourShape>(value, Key::Behaviour)?;
    let limit = limit_field(value)?;
    let starts = values_field::<Start, StartShape>(alloc, value, Key::Start)?;
    let listed = list_field(value, Key::Commands)?;
    let commands = commands_in(alloc, version, listed)?;
    no_other_key(InputKind::Script, value)?;
    Ok(Request {
        behaviour,
        members,
        f,
        limit,
        starts,
        commands,
    })
}

/// What the bytes ask for as a script.
fn request_in(alloc: Global, input: &[u8]) -> Result<Request, RunFault>
    ensures { Gives request_outline result (outline_of_input input.now) }
{
    let value = value_in(alloc, input)?;
    request_of(alloc, &value)
}

/// The script that asks for this, if there is such a group, and else the fault of the input with these bytes.
fn script_of(alloc: Global, request: Request, input: Vec<u8>) -> Result<Script, InputFault>
    ensures script { IfOk result (λ s. outline s ≡ request_outline request) }
    ensures rules { IfOk result (λ s. IsConfig has_few_hops s.config) }
    ensures fault { (bytes : List ℕ) → IsRequestOf bytes request input.items → IfErr result (IsNoScript bytes) }
{
    let Request {
        behaviour,
        members,
        f,
        limit,
        starts,
        commands,
    } = request;
    let starts = starts.as_slice();
    match Config::new(alloc, members, f, limit, starts) {
        Ok(config) => Ok(Script {
            behaviour,
            config,
            commands,
        }),
        Err(refusal) => Err(InputFault {
            kind: InputKind::Script,
            fault: RunFault::from(refusal),
            breach: Some(LogBreach::Trace(refusal.breach(members, f, limit, starts))),
            input,
        }),
    }
}

/// The script that the reader has, as one JSON object, or the first fault of the input.
pub fn read_script<R: Read>(alloc: Global, reader: &mut R) -> Result<Script, InputFault>
    ensures script { IfOk result (λ s. IfSome (R.remaining reader.old) (λ input. IsScriptOf input (outline s))) }
    ensures rules { IfOk result (λ s. IsConfig has_few_hops s.config) }
    ensures fault { IfErr result (λ fault. IfSome (R.remaining reader.old) (λ input. IsNoScript input fault)) }
{
    let kind = InputKind::Script;
    let input = read_input(alloc, kind, reader)?;
    match request_in(alloc, input.as_slice()) {
        Ok(request) => script_of(alloc, request, input),
        Err(fault) => Err(InputFault::new(kind, fault, input)),
    }
}
