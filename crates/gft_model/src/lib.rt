//! The definitions of the language as a reader checks them, and their laws.
#![tactic(auto)]

mod answers;
mod laws;
mod refusals;
mod sources;

pub use answers::{
    compiled_is_determined, complete_answers_once, line_is_read, line_is_read_once,
    loaded_files_are_determined, output_is_determined, parse_answers_once, session_answers_once,
    skeleton_is_right, texts_are_determined, written_file_is_given,
};
pub use laws::{
    bytes_have_fault_or_fields, cut_covers_tree, erased_is_string, fault_is_determined,
    fields_are_read_again, file_is_of_one_grammar, flaw_is_determined, flawed_is_no_type,
    grammar_has_no_fault, grammar_is_not_invalid, listed_covers_tree, nonterminal_is_determined,
    run_gives_string, run_gives_value, solution_is_unique, string_is_of_run, type_is_determined,
    typed_has_skeleton_type, value_is_of_run, yield_is_determined,
};
pub use refusals::{first_refusal_is_unique, tokens_are_unbroken};
pub use sources::{
    alternatives_in_order, cases_are_in_order, found_type_is_determined, judgement_is_determined,
    meaning_is_determined, no_variants, pattern_fits_once, resolved_grammar_is_determined,
    spelled_judgement_is_determined, spelled_module_is_determined, spelled_pattern_is_determined,
    spelled_slice_is_determined, spelled_term_is_determined, tokens_are_determined,
    values_are_counted, written_type_is_determined,
};
