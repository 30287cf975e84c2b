/// A command for the object at an index of an array. The program never constructs one: only the
/// entries of a history have commands of this type.
pub struct Indexed<C> {
    /// The index of the object.
    pub index: usize,
    /// The command.
    pub cmd: C,
}
