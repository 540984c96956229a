// What a pair holds its store for, and what it tells of itself.
ghost use Rattle.std.specs.Prelude.{◌≡◌};

// What a pair holds its store for.
#[derive(Clone, Copy, Debug, PartialEq, Eq)]
pub enum Held {
    // nothing yet
    Closed,
    // the snapshot
    Open,
    // a snapshot that is lost
    Invalid,
}

// The state of a pair, or of a merging snapshot.
#[derive(Clone, Copy, Debug, PartialEq, Eq)]
pub enum State {
    Closed,
    Active,
    Merging,
    Invalid,
    // a device is gone
    Stopped,
}

// What status tells: the state, the exceptions, and the sectors allocated and of metadata.
#[derive(Clone, Copy, Debug, PartialEq, Eq)]
pub struct Status {
    pub state: State,
    pub exceptions: usize,
    pub allocated: u64,
    pub metadata: u64,
}

// Whether the snapshot became invalid by an origin write.
#[derive(Clone, Copy, Debug, PartialEq, Eq)]
pub enum OriginWrite {
    Kept,
    Invalidated,
}

impl Status {
    ghost use Rattle.history.specs.Steps.{no_figures};
    ghost use Rattle.snapshot.specs.Figures.{figured, state_number};

    // Outside active and merging all but the state is 0.
    pub(crate) fn without(state: State) -> Status
        ensures { figured result ≡ no_figures (state_number state) }
    {
        Status {
            state,
            exceptions: 0,
            allocated: 0,
            metadata: 0,
        }
    }
}
