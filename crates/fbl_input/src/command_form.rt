//! How the commands of scripts are written.

ghost use Rattle.std.specs.Prelude.{◌≡◌, find, option_map};
ghost use Rattle.serde_json.specs.View.{view};
ghost use Rattle.fbl_input.specs.Forms.{IsWanted, all_forms, form_name, form_of, form_wanted, named_form, version_of};
ghost use Rattle.fbl_input.specs.Shapes.{is_text};

use crate::key::Key;
use crate::shapes::{JsonShape, count_in, is_named, list_in};
use serde_json::Value;
use std::fmt;

/// The most commands that a script may have.
pub const MOST_COMMANDS: usize = 1024;

/// The version of a script, which says what commands it may have.
#[derive(Clone, Copy)]
pub enum Version {
    First,
    Second,
}

/// A version, by its number.
pub struct VersionShape;

impl JsonShape<Version> for VersionShape {
    ghost use Rattle.fbl_input.specs.Forms.{version_shape};

    ghost shape = { version_shape };

    fn in_value(value: &Value) -> Option<Version> {
        match count_in(value)? {
            1 => Some(Version::First),
            2 => Some(Version::Second),
            _ => None,
        }
    }
}

/// How a command is written, by its name.
#[derive(Clone, Copy)]
pub enum CommandForm {
    Deliver,
    States,
    Report,
    Strike,
    Recover,
    Dump,
    Run,
    Checkpoint,
}

impl CommandForm {
    ghost use Rattle.fbl_input.specs.Forms.{is_of};

    /// The name of the command.
    pub fn name(self) -> &'static str
        ensures { result.now ≡ form_name self }
    {
        match self {
            CommandForm::Deliver => "deliver",
            CommandForm::States => "states",
            CommandForm::Report => "report",
            CommandForm::Strike => "strike",
            CommandForm::Recover => "recover",
            CommandForm::Dump => "dump",
            CommandForm::Run => "run",
            CommandForm::Checkpoint => "checkpoint",
        }
    }

    /// What stands behind the name, and what that may be.
    fn arguments(self) -> (&'static str, &'static str) {
        match self {
            CommandForm::Deliver => (", to, from", ": members 0 to 15"),
            CommandForm::States | CommandForm::Report | CommandForm::Recover => ("", ""),
            CommandForm::Strike | CommandForm::Dump => (", set", ": a list of members 0 to 15"),
            CommandForm::Run => (
                ", plan",
                ": a list of [at, set], each a number 0 to 4294967295 and a list of members 0 to 15",
            ),
            CommandForm::Checkpoint => (", member", ": 0 to 15"),
        }
    }

    /// Whether a script of the version may have the command.
    pub fn is_of(self, version: Version) -> bool
        ensures { result ≡ is_of version self }
    {
        match (self, version) {
            (CommandForm::Checkpoint, Version::First) => false,
            _ => true,
        }
    }
}

/// The forms of commands: those of version 1, and then those of version 2 alone.
fn forms() -> &'static [CommandForm]
    ensures { result.now ≡ all_forms }
{
    &[
        CommandForm::Deliver,
        CommandForm::States,
        CommandForm::Report,
        CommandForm::Strike,
        CommandForm::Recover,
        CommandForm::Dump,
        CommandForm::Run,
        CommandForm::Checkpoint,
    ]
}

/// Whether the value is the name of the form.
fn is_name_of(form: CommandForm, name: &Value) -> bool
    ensures { result ≡ is_text (form_name form) (view name.now) }
{
    is_named(name, form.name())
}

/// The first of the forms that has the name.
fn named_among<'a>(forms: &'a [CommandForm], name: &Value) -> Option<&'a CommandForm>
    ensures { option_map (λ form. form.now) result ≡ find (λ form. is_text (form_name form) (view name.now)) forms.now }
{
    forms.iter().find(|form| is_name_of(**form, name))
}

/// The form of the command that the value names.
pub fn form_named(name: &Value) -> Option<CommandForm>
    ensures { result ≡ named_form (view name.now) }
{
    named_among(forms(), name).copied()
}

/// The version of the script that the value is: version 1 where it names none.
fn version_in(value: &Value) -> Version
    ensures { result ≡ version_of (view value.now) }
{
    match value.get(Key::Version.name()) {
        Some(version) => VersionShape::in_value(version).unwrap_or(Version::First),
        None => Version::First,
    }
}

/// The form of the command that the list names, if it is one that names a command.
fn form_in(value: &Value) -> Option<CommandForm>
    ensures { result ≡ form_of (view value.now) }
{
    match list_in(value)? {
        [name, ..] => form_named(name),
        [] => None,
    }
}

/// The form of the command that stands at the place of the commands, if one is named there.
fn form_at(value: &Value, place: usize) -> Option<CommandForm>
    ensures { result ≡ form_wanted (view value.now) place }
{
    let list = list_in(value.get(Key::Commands.name())?)?;
    form_in(list.get(place)?)
}

/// The command that is wanted at a place: one of this form, or any where none is named.
#[derive(Clone, Copy)]
pub(crate) struct Wanted {
    form: Option<CommandForm>,
    version: Version,
}

impl Wanted {
    /// What is wanted at the place of the commands of the script that the value is.
    pub(crate) fn at(value: &Value, place: usize) -> Wanted
        ensures { IsWanted (view value.now) place result }
    {
        Wanted {
            form: form_at(value, place),
            version: version_in(value),
        }
    }
}

/// Writes how a command of the form is written, behind this.
fn write_form<W: fmt::Write>(
    f: &mut fmt::Formatter<W>,
    before: &str,
    form: CommandForm,
) -> fmt::Result {
    let name = form.name();
    let (arguments, _) = form.arguments();
    write!(f, "{before}[\"{name}\"{arguments}]")
}

/// Writes how each command is written.
fn write_forms<W: fmt::Write>(f: &mut fmt::Formatter<W>) -> fmt::Result {
    let mut before = "one of ";
    for form in forms() {
        if !form.is_of(Version::First) {
            before = ", and in version 2 ";
        }
        write_form(f, before, *form)?;
        before = ", ";
    }
    Ok(())
}

impl fmt::Display for Wanted {
    fn fmt<W: fmt::Write>(&self, f: &mut fmt::Formatter<W>) -> fmt::Result {
        let Some(form) = self.form else {
            return write_forms(f);
        };
        let name = form.name();
        if !form.is_of(self.version) {
            return write!(f, "a command of version 1: a {name} is one of version 2");
        }
        let (_, values) = form.arguments();
        write_form(f, "", form)?;
        f.write_str(values)
    }
}
