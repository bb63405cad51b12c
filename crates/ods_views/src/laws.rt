//! The law that the blocks of a version give the same result for a query as its list of entries.
ghost use Rattle.ods_views.specs.Versions.{AnswersByTheList};

/// The result of a query on a version equals its result by the list of requests.
pub fn answers_by_the_list()
    ensures { AnswersByTheList }
{}
