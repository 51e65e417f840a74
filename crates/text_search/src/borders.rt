//! The borders of a text.
ghost use Rattle.std.specs.Prelude.{◌≡◌, IfOk, length};
ghost use Rattle.text_search.specs.Borders.{AreBorders};

use code_units::Memory;
use std::alloc::Global;

/// For each front of a text, from that of one unit on, how many units its border has: the longest
/// text that stands both at its front and at its end, and is not all of it.
pub(crate) fn borders(alloc: Global, x: &[u16]) -> Result<Vec<usize>, Memory>
    ensures all { IfOk result (λ bs. length bs.items ≡ length x.now) }
    ensures borders { IfOk result (λ bs. AreBorders x.now bs.items) }
{
    let mut borders = Vec::with_capacity(alloc, x.len())?;
    if x.is_empty() {
        return Ok(borders);
    }
    borders.push(0)?;
    let mut border = 0;
    while borders.len() < x.len() {
        if x[border] == x[borders.len()] {
            border += 1;
            borders.push(border)?;
        } else if border == 0 {
            borders.push(0)?;
        } else {
            border = borders[border - 1];
        }
    }
    Ok(borders)
}
