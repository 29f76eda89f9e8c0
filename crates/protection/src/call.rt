// The six calls that build, and what they answer.

// A call with its arguments.
#[derive(Clone, Copy, PartialEq, Eq, Debug)]
pub enum Call {
    Make(u16),
    Unmake(u16),
    Join(u16, u16, u16),
    Part(u16, u16),
    Split(u16, u16),
    Remove(u16, u16),
}

// What an accepted call answers.
#[derive(Clone, Copy, PartialEq, Eq, Debug)]
pub enum Answer {
    // make and unmake
    Done,
    // the links tied or cut, or the tuples taken out
    Count(u16),
    // the first of the new tuples, and how many they are
    Added(u16, u16),
}
