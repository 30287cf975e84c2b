ghost use Rattle.std.specs.Prelude.{◌≡◌};

/// An object that takes one command at a time and replies to each. Contracts describe a command by
/// `step`: the state after it, and the reply.
pub trait Object {
    /// The commands.
    type Cmd;

    /// The replies.
    type Reply;

    ghost step: { Self → Self.Cmd → Self × Self.Reply };

    /// Takes one command. The new state and the reply are those of `step`.
    fn apply(&mut self, cmd: &Self::Cmd) -> Self::Reply
        ensures state { self.new ≡ (step self.old cmd.now).0 }
        ensures reply { result ≡ (step self.old cmd.now).1 };
}
