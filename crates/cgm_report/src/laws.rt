//! Laws over the definitions. Each function does nothing: its contract is the law.
ghost use Rattle.cgm_report.specs.Laws.{FoundReportsShowQuantities};

/// Where the vector of what is found is that of its assignment, the lines of its objectives show the
/// quantities themselves.
pub fn found_reports_show_quantities()
    ensures { FoundReportsShowQuantities }
{}
