//! Lists of distinct lines.
ghost use Rattle.std.specs.Prelude.{◌≡◌, ◌<◌, length};
ghost use Rattle.rules.specs.Lists.{push_new};

use arrayvec::ArrayVec;

/// Adds a line, unless the list has it.
#[tactic(auto, using(crate::proofs::Searches::has_by_list_any))]
pub(crate) fn push_new(lines: &mut ArrayVec<u32, 32>, line: u32)
    requires { length lines.old.items < 32 }
    ensures { lines.new.items ≡ push_new lines.old.items line }
{
    if !lines.contains(&line) {
        lines.push(line);
    }
}
