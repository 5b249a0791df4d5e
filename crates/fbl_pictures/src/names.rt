//! What all pictures draw alike: the names of members, their lines where they are down, and what may be drawn or not.

ghost use Rattle.std.specs.Prelude.{◌≡◌, ◌++◌, OnOk};
ghost use Rattle.std.specs.Option.{option_to_list};
ghost use Rattle.fbl_history.specs.Names.{label_and_names};
ghost use Rattle.fbl_history.specs.Shapes.{line_kind_of};

use fbl_history::{LineKind, Shape, Status};
use fbl_trace::Member;
use std::alloc::AllocError;

/// How a part of a member's line is drawn where the member is down, or where it isn't.
pub(crate) fn line_kind(is_down: bool) -> LineKind
    ensures { result ≡ line_kind_of is_down }
{
    if is_down {
        LineKind::Down
    } else {
        LineKind::Up
    }
}

/// Adds the shape, if there is one.
pub(crate) fn push_any(shapes: &mut Vec<Shape>, shape: Option<Shape>) -> Result<(), AllocError>
    ensures { OnOk result (shapes.new.items ≡ shapes.old.items ++ option_to_list shape) }
{
    if let Some(shape) = shape {
        shapes.push(shape)?;
    }
    Ok(())
}

/// Adds the member's label, and its name behind each 24 columns, by which a wide picture can be read far from its left end: not where no
/// more than 8 others follow these.
pub(crate) fn push_names(
    shapes: &mut Vec<Shape>,
    columns: usize,
    member: Member,
    status: Option<Status>,
) -> Result<(), AllocError>
    ensures { OnOk result (shapes.new.items ≡ shapes.old.items ++ label_and_names columns member status) }
{
    shapes.push(Shape::Label { member, status })?;
    for group in 0..columns.saturating_sub(9) / 24 {
        let column = 24 * (group + 1);
        shapes.push(Shape::Name { column, member })?;
    }
    Ok(())
}
