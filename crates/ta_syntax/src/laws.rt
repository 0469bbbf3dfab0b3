//! Laws of the definitions.
#![tactic(auto)]

ghost use Rattle.ta_syntax.specs.TokenLaws.{TokensAreUnique, RefusedIsUnique, RefusedHasNoTokens, PrintedHasTokens, TreesAreLegal};

/// The tokens of a text are unique, and so is its first refused byte, where it has no tokens.
pub fn tokens_are_unique()
    ensures tokens { TokensAreUnique }
    ensures refused { RefusedIsUnique }
    ensures apart { RefusedHasNoTokens }
{}

/// Every list of legal kinds is that of the tokens of some text, namely of what is printed for it. The tokens of a tree of the grammar are such a list.
pub fn printed_has_tokens()
    ensures tokens { PrintedHasTokens }
    ensures trees { TreesAreLegal }
{}
