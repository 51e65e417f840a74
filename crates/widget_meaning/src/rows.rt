//! What single widgets do, computed from the definitions.
ghost use Rattle.widget_meaning.specs.Rows.{Rows};
ghost use Rattle.widget_meaning.specs.PageRows.{PageRows};
ghost use Rattle.widget_meaning.specs.BodyRows.{BodyRows};

/// The stop, the fuel spent, the log and the notes of some widgets.
pub fn rows_hold()
    ensures { Rows }
{}

/// What widgets do with the page, their events among it.
pub fn page_rows()
    ensures { PageRows }
{}

/// What single bodies do on one page: natives, ends of calls, timers, posts, changes of nodes, and a
/// node past the limit.
pub fn body_rows()
    ensures { BodyRows }
{}
