//! What holds of the grid of a report, each as the contract of a function that does nothing.
ghost use Rattle.report_form.specs.Laws.{GridReadsBack, GridShowsEachPoint};

/// What is read of the grid of a report is its header and one record for each point, in order, and no more.
pub fn grid_reads_back()
    ensures { GridReadsBack }
{}

/// The record of a point shows its column and its row, and then its ends, or two empty fields exactly where it is covered.
pub fn grid_shows_each_point()
    ensures { GridShowsEachPoint }
{}
