// Lines that a block may begin at.
ghost use Rattle.std.specs.Prelude.{◌≡◌};
ghost use Rattle.md_rules.specs.Shallow.{is_shallow};

use md_lines::Line;

/// Whether the line's indent is at most 3.
pub(crate) fn is_shallow(line: &Line) -> bool
    ensures { result ≡ is_shallow line.now }
{
    line.indent <= 3
}
