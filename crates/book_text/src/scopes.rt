// The variables of a rule, and the kinds of the rows that they run over.
ghost use Rattle.std.specs.Prelude.{◌≡◌};
ghost use Rattle.book_text.specs.States.{kind_in, variable_of, has_kind, viable, first_fits};

use crate::words::Keyword;
use ftpl::properties::{Variable, VariableKind};

/// The kinds of the rows that v runs over and, if there are two quantifiers, w.
#[derive(Clone, Copy, PartialEq, Eq, Debug)]
pub(crate) struct Scope {
    pub outer: VariableKind,
    pub inner: Option<VariableKind>,
}

/// The kind of the rows that a bound variable runs over.
pub(crate) fn kind_in(scope: Scope, variable: Variable) -> VariableKind
    ensures { result ≡ kind_in scope variable }
{
    match variable {
        Variable::Outer => scope.outer,
        Variable::Inner => scope.inner.unwrap_or(scope.outer),
    }
}

/// The variable that a word names, if it is bound.
pub(crate) fn as_variable(scope: Scope, word: &[u8]) -> Option<Variable>
    ensures { result ≡ variable_of scope word.now }
{
    match word {
        b"v" => Some(Variable::Outer),
        b"w" if scope.inner.is_some() => Some(Variable::Inner),
        _ => None,
    }
}

/// Whether some variable runs over rows of this kind.
fn has_kind(scope: Scope, kind: VariableKind) -> bool
    ensures { result ≡ has_kind scope kind }
{
    scope.outer == kind || scope.inner == Some(kind)
}

/// Whether a test that begins so can be completed.
pub(crate) fn is_viable(scope: Scope, keyword: Keyword) -> bool
    ensures { result ≡ viable scope keyword }
{
    match keyword {
        Keyword::Name | Keyword::In | Keyword::Child | Keyword::Same => true,
        Keyword::Bound => {
            has_kind(scope, VariableKind::Provided) && has_kind(scope, VariableKind::Required)
        }
        Keyword::Up => has_kind(scope, VariableKind::Component),
        Keyword::AtMost => has_kind(scope, VariableKind::Parameter),
    }
}

/// Whether the first operand of a test may run over rows of this kind.
pub(crate) fn first_fits(keyword: Keyword, kind: VariableKind) -> bool
    ensures { result ≡ first_fits keyword kind }
{
    match keyword {
        Keyword::Name | Keyword::In | Keyword::Child | Keyword::Same => true,
        Keyword::Bound => kind == VariableKind::Provided,
        Keyword::Up => kind == VariableKind::Component,
        Keyword::AtMost => kind == VariableKind::Parameter,
    }
}
