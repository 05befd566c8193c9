// What the grammar wants at a place, where it is one token.
ghost use Rattle.std.specs.Prelude.{◌≡◌};
ghost use Rattle.acs_parse.specs.Wants.{fits};

use acs_symbol::{Symbol, WordKind};
use acs_tree::Compare;

/// A token that the grammar names: a keyword, a sign, or any token of a kind.
#[derive(Clone, Copy)]
pub enum Want {
    Proc,
    FiltList,
    Exclude,
    Then,
    Else,
    When,
    Otherwise,
    End,
    Code,
    And,
    Or,
    Open,
    Close,
    Comma,
    Equal,
    Operator,
    Variable,
    Word,
    Number,
    Head,
    Name,
}

impl Want {
    /// Whether the token is what is wanted; AND, OR and comparisons may be words or signs.
    pub fn fits(self, symbol: &Symbol<'_>) -> bool
        ensures { result ≡ fits self symbol.now }
    {
        match self {
            Want::Proc => matches!(symbol, Symbol::Word(WordKind::Proc, _)),
            Want::FiltList => matches!(symbol, Symbol::Word(WordKind::FiltList, _)),
            Want::Exclude => matches!(symbol, Symbol::Word(WordKind::Exclude, _)),
            Want::Then => matches!(symbol, Symbol::Word(WordKind::Then, _)),
            Want::Else => matches!(symbol, Symbol::Word(WordKind::Else, _)),
            Want::When => matches!(symbol, Symbol::Word(WordKind::When, _)),
            Want::Otherwise => matches!(symbol, Symbol::Word(WordKind::Otherwise, _)),
            Want::End => matches!(symbol, Symbol::Word(WordKind::End, _)),
            Want::Code => matches!(symbol, Symbol::Word(WordKind::Code, _)),
            Want::And => matches!(symbol, Symbol::AndSign | Symbol::Word(WordKind::And, _)),
            Want::Or => matches!(symbol, Symbol::OrSign | Symbol::Word(WordKind::Or, _)),
            Want::Open => matches!(symbol, Symbol::Open),
            Want::Close => matches!(symbol, Symbol::Close),
            Want::Comma => matches!(symbol, Symbol::Comma),
            Want::Equal => matches!(
                symbol,
                Symbol::Operator(Compare::Eq) | Symbol::Word(WordKind::Compare(Compare::Eq), _)
            ),
            Want::Operator => matches!(
                symbol,
                Symbol::Operator(_) | Symbol::Word(WordKind::Compare(_), _)
            ),
            Want::Variable => matches!(symbol, Symbol::Variable(_)),
            Want::Word => matches!(symbol, Symbol::Word(_, _)),
            Want::Number => matches!(symbol, Symbol::Word(WordKind::Number, _)),
            Want::Head => is_head(symbol),
            Want::Name => matches!(symbol, Symbol::Word(_, _) | Symbol::Variable(_)),
        }
    }
}

fn is_head(symbol: &Symbol<'_>) -> bool
    ensures { result ≡ fits Want.Head symbol.now }
{
    match symbol {
        Symbol::Word(WordKind::Number, _) => false,
        Symbol::Word(_, _) | Symbol::Variable(_) => true,
        _ => false,
    }
}
