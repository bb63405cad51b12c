//! Laws about the definitions of the catalogue. Each law is a function with an empty body.
ghost use Rattle.ods_request.specs.Laws.{PastIsKept, ReplayGoesOn, LookingChangesNothing, RefusedHasNoStep, AnswerIsDetermined, AnswerIsStep, AnswersAgree, OtherFilesStay, CreatedIsNew, DefaultStays, EnteredIsFound, RemovedIsGone};

/// A step never removes an ID from the past.
pub fn past_is_kept()
    ensures { PastIsKept }
{}

/// The replay of a list with one more entry is the step of that entry on the replay of the list.
pub fn replay_goes_on()
    ensures { ReplayGoesOn }
{}

/// A query or listing leaves the catalogue unchanged.
pub fn looking_changes_nothing()
    ensures { LookingChangesNothing }
{}

/// A refused request has no step.
pub fn refused_has_no_step()
    ensures { RefusedHasNoStep }
{}

/// Every request except Create has at most one answer.
pub fn answer_is_determined()
    ensures { AnswerIsDetermined }
{}

/// A request that is not refused, and is not Create, has a step.
pub fn answer_is_step()
    ensures { AnswerIsStep }
{}

/// Two steps of one catalogue by one user and request have equal answers and equal results, unless they make a file.
pub fn answers_agree()
    ensures { AnswersAgree }
{}

/// A step changes no file except the file that the request names first, or the file that it makes.
pub fn other_files_stay()
    ensures { OtherFilesStay }
{}

/// A new file has an ID that no file has or ever had.
pub fn created_is_new()
    ensures { CreatedIsNew }
{}

/// No step changes the protection of new files.
pub fn default_stays()
    ensures { DefaultStays }
{}

/// After an Enter, each user who may read the directory finds the file.
pub fn entered_is_found()
    ensures { EnteredIsFound }
{}

/// After a Remove, no user who may read the directory finds the name.
pub fn removed_is_gone()
    ensures { RemovedIsGone }
{}
