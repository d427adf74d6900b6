// The operands of a test.
ghost use Rattle.std.specs.Prelude.{◌≡◌, true, false, [], ◌∷◌, Some, MatchOption};
ghost use Rattle.ftpl.specs.declared.properties.VariableKind.TheVariants.{Parameter};
ghost use Rattle.book_text.specs.declared.words.Keyword.TheVariants.{AtMost};
ghost use Rattle.book_text.specs.Words.{variable_text, keyword_text};
ghost use Rattle.book_text.specs.Rules.{Over, TestSays};
ghost use Rattle.book_text.specs.States.{is_kind, kind_in, variable_of, variable_fits, first_fits, second_fits};

use crate::scopes::{Scope, as_variable, first_fits, kind_in};
use crate::words::Keyword;
use ftpl::properties::{Test, Variable, VariableKind};
use host::pack_name;
use numerals::value_within;

/// The first operand of a test.
pub(crate) fn first_operand(scope: Scope, keyword: Keyword, word: &[u8]) -> Option<Variable>
    ensures { MatchOption result (variable_fits scope (first_fits keyword) (variable_of scope word.now) ≡ false) (λ x. (variable_of scope word.now ≡ Some x) × (first_fits keyword (kind_in scope x) ≡ true)) }
{
    as_variable(scope, word).filter(|x| first_fits(keyword, kind_in(scope, *x)))
}

/// The variable that a word names, if it runs over rows of this kind.
fn variable_over(scope: Scope, kind: VariableKind, word: &[u8]) -> Option<Variable>
    ensures { MatchOption result (variable_fits scope (λ k. is_kind k kind) (variable_of scope word.now) ≡ false) (λ x. (variable_of scope word.now ≡ Some x) × (is_kind (kind_in scope x) kind ≡ true)) }
{
    as_variable(scope, word).filter(|x| kind_in(scope, *x) == kind)
}

/// The comparison of a parameter with what the word names: another one, or a number.
#[tactic(auto, using(crate::proofs::Operations::no_number))]
fn comparison(scope: Scope, left: Variable, word: &[u8]) -> Option<Test>
    ensures { MatchOption result (second_fits scope AtMost word.now ≡ false) (λ t. Over scope left Parameter → TestSays scope t (keyword_text AtMost ∷ variable_text left ∷ word.now ∷ [])) }
{
    match variable_over(scope, VariableKind::Parameter, word) {
        Some(right) => Some(Test::AtMost { left, right }),
        None => value_within(word).map(|number| Test::AtMostNumber { left, number }),
    }
}

/// The test of a bound variable and what the word names.
#[tactic(auto, using(crate::proofs::Operations::no_name))]
pub(crate) fn second_operand(
    scope: Scope,
    keyword: Keyword,
    subject: Variable,
    word: &[u8],
) -> Option<Test>
    ensures { MatchOption result (second_fits scope keyword word.now ≡ false) (λ t. Over scope subject (kind_in scope subject) → first_fits keyword (kind_in scope subject) ≡ true → TestSays scope t (keyword_text keyword ∷ variable_text subject ∷ word.now ∷ [])) }
{
    match keyword {
        Keyword::Name => pack_name(word).map(|name| Test::Named { subject, name }),
        Keyword::In => pack_name(word).map(|name| Test::OwnerNamed { subject, name }),
        Keyword::Bound => variable_over(scope, VariableKind::Required, word).map(|to| Test::Bound {
            from: subject,
            to,
        }),
        Keyword::Child => as_variable(scope, word).map(|owner| Test::Child {
            child: subject,
            owner,
        }),
        Keyword::Same => as_variable(scope, word).map(|right| Test::Same {
            left: subject,
            right,
        }),
        Keyword::Up => None,
        Keyword::AtMost => comparison(scope, subject, word),
    }
}
