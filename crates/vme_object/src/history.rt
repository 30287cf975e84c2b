/// An entry of a history: a command, its caller and its reply. No program makes an entry: contracts
/// use lists of entries as the models of shared objects.
pub struct Entry<C, R> {
    /// The number of the caller.
    pub who: usize,
    /// The command.
    pub cmd: C,
    /// The reply to the command.
    pub reply: R,
}
