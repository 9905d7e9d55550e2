//! What a line `False` says, by its places and values alone.

ghost use Rattle.search_report.specs.FalseLines.{FalseLinesAreSo};

/// Where at the end each place that a line `False` names has one of the values that stand beside it, the propositions that are given in
/// its branch aren't all as they are given.
pub fn false_lines_are_so()
    ensures { FalseLinesAreSo }
{}
