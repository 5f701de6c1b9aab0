//! Laws of the definitions over sources. Each function does nothing; its clause is the law.
ghost use Rattle.gft_model.specs.SourceLaws.{TokensAreDetermined, SpelledTermIsDetermined, SpelledPatternIsDetermined, SpelledJudgementIsDetermined, SpelledSliceIsDetermined, SpelledModuleIsDetermined, AlternativesInOrder, NoVariants, ValuesAreCounted, CasesAreInOrder, PatternFitsOnce, WrittenTypeIsDetermined, FoundTypeIsDetermined, MeaningIsDetermined, JudgementIsDetermined, ResolvedGrammarIsDetermined};

/// A file has at most one list of tokens.
pub fn tokens_are_determined()
    ensures { TokensAreDetermined }
{}

/// Tokens spell at most one term of a level.
pub fn spelled_term_is_determined()
    ensures { SpelledTermIsDetermined }
{}

/// Tokens spell at most one pattern of a level.
pub fn spelled_pattern_is_determined()
    ensures { SpelledPatternIsDetermined }
{}

/// The tokens after a keyword spell at most one judgement.
pub fn spelled_judgement_is_determined()
    ensures { SpelledJudgementIsDetermined }
{}

/// A slice spells at most one judgement, by its own keyword or by that of the slice before.
pub fn spelled_slice_is_determined()
    ensures { SpelledSliceIsDetermined }
{}

/// The tokens of a file spell at most one module.
pub fn spelled_module_is_determined()
    ensures { SpelledModuleIsDetermined }
{}

/// The outcomes of a choice of two terms are those of the first, then those of the second.
pub fn alternatives_in_order()
    ensures { AlternativesInOrder }
{}

/// A choice among no terms has no outcome.
pub fn no_variants()
    ensures { NoVariants }
{}

/// A type has as many parameter values as are counted.
pub fn values_are_counted()
    ensures { ValuesAreCounted }
{}

/// The values of an argument go through the cases of its type in order, and numbering their string
/// leaves changes no case.
pub fn cases_are_in_order()
    ensures { CasesAreInOrder }
{}

/// A pattern fits a type with at most one scope.
pub fn pattern_fits_once()
    ensures { PatternFitsOnce }
{}

/// A term is at most one type, where a type must stand.
pub fn written_type_is_determined()
    ensures { WrittenTypeIsDetermined }
{}

/// A term has at most one found type, and means at most one typed term.
pub fn found_type_is_determined()
    ensures { FoundTypeIsDetermined }
{}

/// A term that fits a type means at most one typed term there.
pub fn meaning_is_determined()
    ensures { MeaningIsDetermined }
{}

/// A judgement has at most one typing, where each language has one lincat of a category.
pub fn judgement_is_determined()
    ensures { JudgementIsDetermined }
{}

/// Modules and chosen names have at most one resolved grammar.
pub fn resolved_grammar_is_determined()
    ensures { ResolvedGrammarIsDetermined }
{}
