ghost use Rattle.std.specs.Prelude.{◌≡◌, IfOk};
ghost use Rattle.dbe_lines.specs.Texts.{is_large_row};

use dbe_num::Memory;
use dbe_values::{Item, item_text};
use std::alloc::Global;

// The most bytes of a row's text.
const MOST_ROW_BYTES: usize = 4_194_304;

/// Whether the text of a row, as compact JSON, has more than 4,194,304 bytes.
pub fn is_large_row(alloc: Global, row: &Item) -> Result<bool, Memory>
    ensures { IfOk result (λ is. is ≡ is_large_row row.now) }
{
    Ok(item_text(alloc, row)?.len() > MOST_ROW_BYTES)
}
