//! Laws of reports: a printed order is read back, a report is short, and one more run raises one count. Each is the
//! contract of a function that does nothing: who calls it knows it.

ghost use Rattle.tso_report.specs.Laws.{ReportSpellsItsOrder, ReportsAreShort, OneMoreRunIsCounted};

use order_builder::order_texts::printed_order_is_spelled;

/// The report of a run spells the order that it shows: read as an order text, it gives that order.
pub fn report_spells_its_order()
    ensures { ReportSpellsItsOrder }
{
    printed_order_is_spelled();
}

/// A report that shows no more than a run of its test can leave is no longer than `longest_report`.
pub fn reports_are_short()
    ensures { ReportsAreShort }
{}

/// A run that is counted raises the count of its own list of values by one and no other count, and the
/// lists stay in ascending order.
pub fn one_more_run_is_counted()
    ensures { OneMoreRunIsCounted }
{}
