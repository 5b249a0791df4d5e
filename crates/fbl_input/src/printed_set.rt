//! How a set of members is printed.

ghost use Rattle.std.specs.Prelude.{◌≡◌, ◌++◌, IfOk, OnOk, string_bytes};
ghost use Rattle.fbl_input.specs.Lines.{after_commas, with_commas, set_words};

use fbl_trace::{Member, MemberSet};
use std::alloc::{AllocError, Global};

/// Writes each member after a comma.
fn push_members(text: &mut String, members: &[Member]) -> Result<(), AllocError>
    ensures { OnOk result (string_bytes text.new ≡ string_bytes text.old ++ after_commas members.now) }
{
    for member in members {
        let number = member.number();
        write!(text, ",{number}")?;
    }
    Ok(())
}

/// Writes the members with commas between.
fn push_listed(text: &mut String, members: &[Member]) -> Result<(), AllocError>
    ensures { OnOk result (string_bytes text.new ≡ string_bytes text.old ++ with_commas members.now) }
{
    match members {
        [] => Ok(text.push_str("none")?),
        [first, others @ ..] => {
            let number = first.number();
            write!(text, "{number}")?;
            push_members(text, others)
        }
    }
}

/// Writes the name, and the set as it is printed.
pub fn push_set(
    text: &mut String,
    alloc: Global,
    name: &str,
    set: MemberSet,
) -> Result<(), AllocError>
    ensures { OnOk result (string_bytes text.new ≡ string_bytes text.old ++ name.now ++ set_words set) }
{
    let members = set.members(alloc)?;
    text.push_str(name)?;
    push_listed(text, members.as_slice())
}

/// The set as it is printed: its members, rising, with commas between and no spaces. The empty set is `none`. `Err` comes
/// only where there is no memory for it.
pub fn set_text(alloc: Global, set: MemberSet) -> Result<String, AllocError>
    ensures { IfOk result (λ text. string_bytes text ≡ set_words set) }
{
    let mut text = String::new(alloc);
    push_set(&mut text, alloc, "", set)?;
    Ok(text)
}
