//! Laws: functions that do nothing, whose clauses hold of all words.

ghost use Rattle.rev_words.specs.Numbers.{ListsAreExact};
ghost use Rattle.rev_words.specs.Rows.{RowsAreRead, RowsAreUsage};
ghost use Rattle.rev_words.specs.Schedule.{SchedulesAreExact};

/// Rows of words: those that are read, and those that are wrong usage.
pub fn row_laws()
    ensures read { RowsAreRead }
    ensures usage { RowsAreUsage }
{}

/// The texts of lists of numbers are those of the grammar.
pub fn list_law()
    ensures { ListsAreExact }
{}

/// The texts of schedules are those of the grammar.
pub fn schedule_law()
    ensures { SchedulesAreExact }
{}
