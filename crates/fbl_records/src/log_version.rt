//! The version of a log.

ghost use Rattle.std.specs.Prelude.{◌≡◌, option_and_then};
ghost use Rattle.serde_json.specs.Find.{get};
ghost use Rattle.serde_json.specs.View.{view};
ghost use Rattle.fbl_input.specs.Shapes.{name_of};
ghost use Rattle.fbl_input.specs.declared.key.Key.TheVariants.{Version};
ghost use Rattle.fbl_records.specs.EventLines.{log_version};

use fbl_input::Key;
use fbl_input::shapes::{JsonShape, number_in};
use serde_json::Value;

/// The version of a log: the number 2.
pub(crate) struct LogVersionShape;

impl JsonShape<u8> for LogVersionShape {
    ghost use Rattle.fbl_records.specs.EventLines.{log_version};

    ghost shape = { log_version };

    fn in_value(value: &Value) -> Option<u8> {
        let number = number_in(value, 2, 2)?;
        Some(number as u8)
    }
}

/// The version of a log, if the value has it.
pub(crate) fn log_version_in(value: &Value) -> Option<u8>
    ensures { result ≡ option_and_then log_version (get (name_of Version) (view value.now)) }
{
    LogVersionShape::in_value(value.get(Key::Version.name())?)
}
