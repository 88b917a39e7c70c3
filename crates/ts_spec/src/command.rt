/// The time of a sample in a command.
#[derive(Clone, Copy, Debug, PartialEq, Eq)]
pub enum At {
    /// `*`: the time of the clock.
    Clock,
    /// A time in milliseconds.
    Time(u64),
}
