//! Laws of the definitions. Each function does nothing; its clause is the law.
ghost use Rattle.gft_model.specs.Laws.{CutCoversTree, ListedCoversTree, SolutionIsUnique, ErasedIsString, YieldIsDetermined, NonterminalIsDetermined, ValueIsOfRun, RunGivesValue, StringIsOfRun, RunGivesString, TypeIsDetermined, TypedHasSkeletonType, FlawedIsNoType, FieldsAreReadAgain, FieldsAreInRange, GrammarOrFlaw, BytesAreJudged, GrammarHasNoFault, FaultIsDetermined, FileIsOfOneGrammar, GrammarIsNotInvalid, BytesHaveFaultOrFields, FlawIsDetermined};

/// The solution of a pattern is unique: it fixes the numbers of its holes too.
pub fn solution_is_unique()
    ensures { SolutionIsUnique }
{}

/// Erasing the brackets and marks of a bracketed string of a tree gives a string of it.
pub fn erased_is_string()
    ensures { ErasedIsString }
{}

/// A run is for words as one to one nonterminal, and under one ref for one text.
pub fn yield_is_determined()
    ensures { YieldIsDetermined }
{}

/// A run is one to at most one nonterminal.
pub fn nonterminal_is_determined()
    ensures { NonterminalIsDetermined }
{}

/// The components that a closed tree has are those of a run of it: a choice of a production for
/// each application.
pub fn value_is_of_run()
    ensures { ValueIsOfRun }
{}

/// A run without holes gives its components to its tree, where each production is of a function.
pub fn run_gives_value()
    ensures { RunGivesValue }
{}

/// A string of a closed tree is what some run of the tree yields.
pub fn string_is_of_run()
    ensures { StringIsOfRun }
{}

/// The words that a run without holes is for are a string of its tree, where each production is of
/// a function.
pub fn run_gives_string()
    ensures { RunGivesString }
{}

/// A tree has at most one type, where functions are told apart by their names and each hole has one
/// type.
pub fn type_is_determined()
    ensures { TypeIsDetermined }
{}

/// A typed tree has the category of its type as its skeleton type.
pub fn typed_has_skeleton_type()
    ensures { TypedHasSkeletonType }
{}

/// A closed tree is an instance of what a string shows of it.
pub fn cut_covers_tree()
    ensures { CutCoversTree }
{}

/// A tree of which a pattern is listed is an instance of that pattern.
pub fn listed_covers_tree()
    ensures { ListedCoversTree }
{}

/// A type with a flaw is not well formed, where functions are told apart by their names and each
/// hole has one type.
pub fn flawed_is_no_type()
    ensures { FlawedIsNoType }
{}

/// The fields of a portable file are read from its bytes, and nothing is left behind them.
pub fn fields_are_read_again()
    ensures { FieldsAreReadAgain }
{}

/// Fields that fit the table of the portable file are those of a grammar in range.
pub fn fields_are_in_range()
    ensures { FieldsAreInRange }
{}

/// What fits the table of the portable file is a grammar, or it has a flaw.
pub fn grammar_or_flaw()
    ensures { GrammarOrFlaw }
{}

/// Bytes are those of a grammar, or at a fault, or those of a grammar with a flaw.
pub fn bytes_are_judged()
    ensures { BytesAreJudged }
{}

/// The bytes of a grammar are at no fault, and nothing stands behind them.
pub fn grammar_has_no_fault()
    ensures { GrammarHasNoFault }
{}

/// A file has at most one first fault.
pub fn fault_is_determined()
    ensures { FaultIsDetermined }
{}

/// The bytes of a file are those of one grammar.
pub fn file_is_of_one_grammar()
    ensures { FileIsOfOneGrammar }
{}

/// The bytes of a grammar are not those of one with a flaw.
pub fn grammar_is_not_invalid()
    ensures { GrammarIsNotInvalid }
{}

/// Bytes have a first fault, or are those of fields that fit the table of the portable file.
pub fn bytes_have_fault_or_fields()
    ensures { BytesHaveFaultOrFields }
{}

/// A file has at most one first flaw, and where it has one it is at no fault.
pub fn flaw_is_determined()
    ensures { FlawIsDetermined }
{}
