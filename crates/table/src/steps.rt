/// A step: what it does and to which places. `at` is the place whose row is changed.
#[derive(Clone, Copy, Debug, PartialEq, Eq)]
pub enum Step {
    /// a stopped component without owner
    New {
        at: u8,
        name: u64,
    },
    /// a provided interface of `owner`
    Provide {
        at: u8,
        owner: u8,
        name: u64,
    },
    /// a required interface of `owner`
    Require {
        at: u8,
        owner: u8,
        name: u64,
    },
    /// a parameter of `owner`
    Parameter {
        at: u8,
        owner: u8,
        name: u64,
        lo: i32,
        hi: i32,
        value: i32,
    },
    /// the row emptied
    Delete {
        at: u8,
    },
    /// the component put into the component `owner`
    Add {
        at: u8,
        owner: u8,
    },
    /// the component taken out of its owner
    Remove {
        at: u8,
    },
    /// the provided interface linked to the required interface `to`
    Bind {
        at: u8,
        to: u8,
    },
    /// the provided interface's link undone
    Unbind {
        at: u8,
    },
    /// the component started
    Start {
        at: u8,
    },
    /// the component stopped
    Stop {
        at: u8,
    },
    /// the parameter's value set
    Set {
        at: u8,
        value: i32,
    },
}

impl Step {
    ghost use Rattle.std.specs.Prelude.{◌≡◌};
    ghost use Rattle.table.specs.Steps.{target};

    /// The place whose row the step changes.
    pub(crate) fn target(self) -> u8
        ensures { result ≡ target self }
    {
        match self {
            Step::New { at, .. }
            | Step::Provide { at, .. }
            | Step::Require { at, .. }
            | Step::Parameter { at, .. }
            | Step::Delete { at }
            | Step::Add { at, .. }
            | Step::Remove { at }
            | Step::Bind { at, .. }
            | Step::Unbind { at }
            | Step::Start { at }
            | Step::Stop { at }
            | Step::Set { at, .. } => at,
        }
    }
}
