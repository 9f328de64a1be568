//! Laws of what is drawn. Each function does nothing; its contract is the law.

ghost use Rattle.racp_show.specs.Laws.{DrawnInColumns, DrawnWhereItRuns};

/// A job that runs is drawn in exactly the columns in whose times it does.
pub fn drawn_where_it_runs()
    ensures { DrawnWhereItRuns }
{}

/// A job that ends by the deadline is drawn in columns that are there.
pub fn drawn_in_columns()
    ensures { DrawnInColumns }
{}
