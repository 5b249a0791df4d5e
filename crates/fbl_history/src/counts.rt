//! How many receipts a history has.

ghost use Rattle.std.specs.Prelude.{◌≡◌};
ghost use Rattle.fbl_history.specs.Columns.{receipts_made as made_in, receipts_undone as undone_in};

use crate::column::Column;

/// How many receipts were ever made.
pub fn receipts_made(columns: &[Column]) -> usize
    ensures { result ≡ made_in columns.now }
{
    columns
        .iter()
        .filter(|column| matches!(column, Column::Receipt { .. }))
        .count()
}

/// How many of them were undone.
pub fn receipts_undone(columns: &[Column]) -> usize
    ensures { result ≡ undone_in columns.now }
{
    columns
        .iter()
        .filter(|column| matches!(column, Column::Receipt { undone: true, .. }))
        .count()
}
