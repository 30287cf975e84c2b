ghost use Rattle.std.specs.Prelude.{◌≡◌};

use crate::object::Object;

/// An operation on an object: it performs one command, which need not exist as a value. `command`
/// is that command.
pub trait Operation<O: Object> {
    ghost command: { Self → O.Cmd };

    /// Performs the command on the object. The new state and the reply are those of the object's
    /// `step`.
    fn perform(&self, object: &mut O) -> O::Reply
        ensures state { object.new ≡ (O.step object.old (command self.now)).0 }
        ensures reply { result ≡ (O.step object.old (command self.now)).1 };
}

/// The operation of a command that exists as a value.
#[derive(Drop)]
pub struct CommandRef<'a, C> {
    /// The command.
    pub cmd: &'a C,
}

impl<O: Object> Operation<O> for CommandRef<'_, O::Cmd> {
    ghost command = { λ g. g.cmd.now };

    fn perform(&self, object: &mut O) -> O::Reply {
        object.apply(self.cmd)
    }
}
