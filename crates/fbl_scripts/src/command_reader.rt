//! Commands as JSON.

ghost use Rattle.std.specs.Prelude.{◌≡◌, map, IfOk};
ghost use Rattle.serde_json.specs.View.{view};
ghost use Rattle.fbl_input.specs.Shapes.{Gives, list_of};
ghost use Rattle.fbl_scripts.specs.Scripts.{command_from, command_shape, commands_from, delivery_from, form_at, planned_from, planned_shape};

use crate::script::{Command, Plan};
use fbl_input::shapes::{JsonShape, all_in, count_in, list_in, member_in, set_in};
use fbl_input::{CommandForm, MOST_COMMANDS, RunFault, Version, form_named};
use fbl_trace::Strike;
use serde_json::Value;
use std::alloc::{AllocError, Global};

fn planned_of(list: &[Value]) -> Option<Strike>
    ensures { result ≡ planned_from (map view list.now) }
{
    match list {
        [at, members] => {
            let at = u64::from(count_in(at)?);
            let set = set_in(members)?;
            Some(Strike { at, set })
        }
        _ => None,
    }
}

/// A strike of a plan: a list of the count at which it comes and its members.
struct PlannedShape;

impl JsonShape<Strike> for PlannedShape {
    ghost use Rattle.fbl_scripts.specs.Scripts.{planned_shape};

    ghost shape = { planned_shape };

    fn in_value(value: &Value) -> Option<Strike> {
        planned_of(list_in(value)?)
    }
}

fn plan_in(alloc: Global, value: &Value) -> Result<Option<Plan>, AllocError>
    ensures { IfOk result (λ plan. plan ≡ list_of planned_shape (view value.now)) }
{
    match list_in(value) {
        Some(list) => Ok(all_in::<Strike, PlannedShape>(alloc, list)?.map(Plan::new)),
        None => Ok(None),
    }
}

fn delivery_of(to: &Value, from: &Value) -> Option<Command>
    ensures { result ≡ delivery_from (view to.now) (view from.now) }
{
    let to = member_in(to)?;
    let from = member_in(from)?;
    Some(Command::Deliver { to, from })
}

/// The command of the form, by what stands behind its name.
fn command_of(
    alloc: Global,
    form: CommandForm,
    arguments: &[Value],
) -> Result<Option<Command>, AllocError>
    ensures { IfOk result (λ c. c ≡ command_from form (map view arguments.now)) }
{
    Ok(match (form, arguments) {
        (CommandForm::Deliver, [to, from]) => delivery_of(to, from),
        (CommandForm::States, []) => Some(Command::States),
        (CommandForm::Report, []) => Some(Command::Report),
        (CommandForm::Strike, [members]) => set_in(members).map(Command::Strike),
        (CommandForm::Recover, []) => Some(Command::Recover),
        (CommandForm::Dump, [members]) => set_in(members).map(Command::Dump),
        (CommandForm::Run, [plan]) => plan_in(alloc, plan)?.map(Command::Run),
        (CommandForm::Checkpoint, [member]) => member_in(member).map(Command::Checkpoint),
        _ => None,
    })
}

/// The form of the command that the name is of, where a script of this version may have it.
fn form_at(version: Version, name: &Value) -> Option<CommandForm>
    ensures { result ≡ form_at version (view name.now) }
{
    form_named(name).filter(|form| form.is_of(version))
}

/// The command that the value is in a script of this version.
fn command_in(alloc: Global, version: Version, value: &Value) -> Result<Option<Command>, AllocError>
    ensures { IfOk result (λ c. c ≡ command_shape version (view value.now)) }
{
    let Some([name, arguments @ ..]) = list_in(value) else {
        return Ok(None);
    };
    match form_at(version, name) {
        Some(form) => command_of(alloc, form, arguments),
        None => Ok(None),
    }
}

/// The commands of a script of this version, or the first fault among them.
pub(crate) fn commands_in(
    alloc: Global,
    version: Version,
    list: &[Value],
) -> Result<Vec<Command>, RunFault>
    ensures { Gives (λ v. v.items) result (commands_from (command_shape version) 0 (map view list.now)) }
{
    let mut commands = Vec::new(alloc);
    let mut place = 0;
    for value in list {
        if place == MOST_COMMANDS {
            return Err(RunFault::BadCommand(place));
        }
        match command_in(alloc, version, value)? {
            Some(command) => commands.push(command)?,
            None => return Err(RunFault::BadCommand(place)),
        }
        place += 1;
    }
    Ok(commands)
}
