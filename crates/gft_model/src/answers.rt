//! Laws of command lines and answers. Each function does nothing; its clause is the law.
ghost use Rattle.gft_model.specs.AnswerLaws.{LineIsRead, LineIsReadOnce, ParseAnswersOnce, CompleteAnswersOnce, TextsAreDetermined, SessionAnswersOnce, OutputIsDetermined, WrittenIsGiven, SkeletonIsRight, CompiledIsDetermined, LoadedFilesAreDetermined};

/// Every line is read, each of its pipes as commands or as a refusal.
pub fn line_is_read()
    ensures { LineIsRead }
{}

/// A line is read in at most one way: as the same pipes and the same refusals.
pub fn line_is_read_once()
    ensures { LineIsReadOnce }
{}

/// `parse` has at most one answer: the same patterns, or the same notice.
pub fn parse_answers_once()
    ensures { ParseAnswersOnce }
{}

/// `complete` has at most one answer.
pub fn complete_answers_once()
    ensures { CompleteAnswersOnce }
{}

/// The texts of a tree in a language, in their order, are determined.
pub fn texts_are_determined()
    ensures { TextsAreDetermined }
{}

/// `UnknownFun`, `WrongArity` and `WrongCategory` are answered only for a tree without a skeleton
/// type.
pub fn skeleton_is_right()
    ensures { SkeletonIsRight }
{}

/// A portable file that a session writes gives, in an import, the grammar that stands for the
/// session's state.
pub fn written_file_is_given()
    ensures { WrittenIsGiven }
{}

/// The files that an import loads, in their order, are determined.
pub fn loaded_files_are_determined()
    ensures { LoadedFilesAreDetermined }
{}

/// A language compiles to at most one concrete syntax.
pub fn compiled_is_determined()
    ensures { CompiledIsDetermined }
{}

/// A session has at most one answer to a line in which no load or save fails.
pub fn session_answers_once()
    ensures { SessionAnswersOnce }
{}

/// A run in which no load or save fails writes at most one output.
pub fn output_is_determined()
    ensures { OutputIsDetermined }
{}
