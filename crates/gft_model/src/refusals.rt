//! Laws of the definitions over refusals. Each function does nothing; its clause is the law.
ghost use Rattle.gft_model.specs.RefusalLaws.{FirstRefusalIsUnique, TokensAreUnbroken};

/// An import has at most one first refusal.
pub fn first_refusal_is_unique()
    ensures { FirstRefusalIsUnique }
{}

/// A file has tokens exactly where nothing is broken in its characters.
pub fn tokens_are_unbroken()
    ensures { TokensAreUnbroken }
{}
