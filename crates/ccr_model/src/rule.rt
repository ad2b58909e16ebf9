//! The 16 rules of legality.

ghost use Rattle.std.specs.Prelude.{◌≡◌};
ghost use Rattle.ccr_model.specs.Rules.{number_of};

/// What a rule of docs/MODEL.md asks of an event, in the order of their numbers. The event is refused unless it is so.
#[derive(Clone, Copy, PartialEq, Eq)]
pub enum Rule {
    /// A post of a script is the poster's next line.
    ScriptLine,
    /// A post of a task is the next post of the running task's play.
    PlayPost,
    /// Tasks have made fewer posts than the budget.
    Budget,
    /// No task of the name that fires has fired, and its actor is at most 32.
    NewTask,
    /// The spot that fires is live.
    LiveSpot,
    /// The messages that are taken are a selection of the spot.
    Selection,
    /// The spot has room.
    Room,
    /// The tasks that are cut are those that are due: for a teardown branch all waiting tasks of its domain, by firing, else none.
    DueCuts,
    /// The task that is admitted is the oldest waiting task of a domain of Interleaves.
    OldestWaiting,
    /// The task may be admitted beside the admitted roots of its domain.
    Admission,
    /// The task that is put fired, was neither put nor cut, and was admitted where a branch of an Interleave fired it.
    Ready,
    /// The task that is dropped is the one that is due: on a `discard n` queue that holds n tasks its oldest, else none.
    DueDrop,
    /// The task that starts is the oldest of its queue.
    OldestQueued,
    /// The actor that starts it isn't a poster, is at most 32, and runs no task that it started.
    IdleActor,
    /// The task that ends is running.
    Running,
    /// The end is that of the task's play, all of whose posts are made; or it is shed, a post is left, and the budget leaves none for it.
    Ending,
}

impl Rule {
    /// The number of the rule (docs/MODEL.md).
    pub fn number(self) -> u8
        ensures { result ≡ number_of self }
    {
        match self {
            Rule::ScriptLine => 1,
            Rule::PlayPost => 2,
            Rule::Budget => 3,
            Rule::NewTask => 4,
            Rule::LiveSpot => 5,
            Rule::Selection => 6,
            Rule::Room => 7,
            Rule::DueCuts => 8,
            Rule::OldestWaiting => 9,
            Rule::Admission => 10,
            Rule::Ready => 11,
            Rule::DueDrop => 12,
            Rule::OldestQueued => 13,
            Rule::IdleActor => 14,
            Rule::Running => 15,
            Rule::Ending => 16,
        }
    }
}
