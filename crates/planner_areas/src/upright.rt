// 6 of an area: document 01, section "Questions in order".
ghost use Rattle.std.specs.Prelude.{◌≡◌};
ghost use Rattle.planner_rules.specs.Areas.{upright};

use planner_rules::PrintRange;

// No first row and no first column is past its last.
#[inline(always)]
pub fn is_upright(range: PrintRange) -> bool
    ensures { result ≡ upright range }
{
    (range.first_row <= range.last_row) & (range.first_column <= range.last_column)
}
