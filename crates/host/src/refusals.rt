ghost use Rattle.std.specs.Prelude.{◌≡◌, Some};
ghost use Rattle.host.specs.Numbers.{rule_number, refusal_number};
ghost use Rattle.host.specs.Words.{rule_words};

use std::fmt;

/// The ten table rules, by what each asks of a row.
#[derive(Clone, Copy, Debug, PartialEq, Eq)]
pub enum Rule {
    /// R1: the kind is 0 to 4, and a row of kind 0 is the empty row
    KnownKind = 1,
    /// R2: link, range, value and up only where the kind has them
    OwnFields = 2,
    /// R3: a filled row's name has the form of a name
    NameForm = 3,
    /// R4: a filled row's owner is a component; a component may have none
    OwnerIsComponent = 4,
    /// R5: a parameter's owner owns no component
    ParameterOwner = 5,
    /// R6: −1,000,000 ≤ lo ≤ value ≤ hi ≤ 1,000,000 in a parameter
    Range = 6,
    /// R7: a link leads to a required interface
    LinkEnd = 7,
    /// R8: the owners of two linked interfaces differ and have one same component as owner
    LinkOwners = 8,
    /// R9: going from owner to owner ends at none
    OwnersEnd = 9,
    /// R10: no lower filled place with the same owner has the same name
    OwnName = 10,
}

impl Rule {
    pub fn number(self) -> u8
        ensures { result ≡ rule_number self }
    {
        self as u8
    }
}

impl fmt::Display for Rule {
    ghost output = { λ rule. Some (rule_words rule) };

    /// What is wrong with a row that breaks the rule.
    fn fmt<W: fmt::Write>(&self, f: &mut fmt::Formatter<W>) -> fmt::Result {
        f.write_str(match self {
            Rule::KnownKind => "the kind is none of the four, or an empty row is not empty",
            Rule::OwnFields => "a link, a range, a value or a start where the kind has none",
            Rule::NameForm => "the name is not 1 to 8 letters or digits",
            Rule::OwnerIsComponent => "the owner is no component",
            Rule::ParameterOwner => "the parameter's owner owns a component",
            Rule::Range => "the range is not -1000000 <= lo <= value <= hi <= 1000000",
            Rule::LinkEnd => "the link does not lead to a required interface",
            Rule::LinkOwners =>
                "the owners of the linked interfaces do not differ, or do not share one component as owner",
            Rule::OwnersEnd => "going from owner to owner does not end",
            Rule::OwnName => "a lower row of the same owner has the same name",
        })
    }
}

/// Why a call is denied. A denied call changes nothing, spoiling an open operation apart.
#[derive(Clone, Copy, Debug, PartialEq, Eq)]
pub enum Refusal {
    /// 1: the value board or the text buffer is too small
    TooSmall,
    /// 2: a place beyond the host's capacity
    BeyondCapacity,
    /// 3: a row is not as the step needs it
    WrongRow,
    /// 4: an operation is open already, or the rack is loaded already
    AlreadyOpen,
    /// 5: no operation is open here, or the one held bears another count
    NoneOpen,
    /// 6: the operation is spoiled
    Spoiled,
    /// 7: the path has no room for an operation's two positions
    PathFull,
    /// 8: no such operation, verb for it, or formula
    NoSuch,
    /// 9: 64 steps are accepted already
    TooManySteps,
    /// 10: a name or a number out of its range
    OutOfRange,
    /// 11: another row of the same owner bears the name
    NameTaken,
    /// 12: a component that has to be stopped is started
    Running,
    /// 13: owned, linked, or not to be joined
    Tied,
    /// 14: other rows need this one
    InUse,
    /// 15: a component would own itself
    OwnerLoop,
    /// 16: a wrong word in the table text; its line from 1, its byte there from 0
    TableWord { line: usize, byte: usize },
    /// 17: a wrong word in the book text; its line from 1, its byte there from 0
    BookWord { line: usize, byte: usize },
    /// 18: the table is not lawful; the lowest place that breaks a rule, and the lowest rule there
    Unlawful { place: u8, rule: Rule },
    /// 19: a standing condition is broken; the lowest one's property
    ConditionBroken { property: u8 },
    /// 20: the rack is not loaded
    NotLoaded,
}

impl Refusal {
    // Stays: a match, since an enum whose variants have fields has no discriminants.
    pub fn number(self) -> u8
        ensures { result ≡ refusal_number self }
    {
        match self {
            Refusal::TooSmall => 1,
            Refusal::BeyondCapacity => 2,
            Refusal::WrongRow => 3,
            Refusal::AlreadyOpen => 4,
            Refusal::NoneOpen => 5,
            Refusal::Spoiled => 6,
            Refusal::PathFull => 7,
            Refusal::NoSuch => 8,
            Refusal::TooManySteps => 9,
            Refusal::OutOfRange => 10,
            Refusal::NameTaken => 11,
            Refusal::Running => 12,
            Refusal::Tied => 13,
            Refusal::InUse => 14,
            Refusal::OwnerLoop => 15,
            Refusal::TableWord { .. } => 16,
            Refusal::BookWord { .. } => 17,
            Refusal::Unlawful { .. } => 18,
            Refusal::ConditionBroken { .. } => 19,
            Refusal::NotLoaded => 20,
        }
    }
}
