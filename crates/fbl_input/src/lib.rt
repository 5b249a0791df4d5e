//! Reading an input whole, JSON values by their shapes, why a script or a recorded run is not taken to its end, writing a text out, and
//! how sets of members are printed.
#![tactic(auto)]

mod command_form;
mod excerpt;
mod explanation;
mod fault;
mod input;
mod input_fault;
mod input_kind;
pub mod items;
mod key;
mod not_json;
mod output;
mod printed_set;
pub mod shapes;

pub use command_form::{CommandForm, MOST_COMMANDS, Version, VersionShape, form_named};
pub use explanation::Explanation;
pub use fault::RunFault;
pub use input::read_input;
pub use input_fault::InputFault;
pub use input_kind::InputKind;
pub use key::Key;
pub use output::{OutputFault, put};
pub use printed_set::{push_set, set_text};
