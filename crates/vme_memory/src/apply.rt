use crate::board::ByteMemory;
use crate::command::BoardCmd;
use crate::reply::Reply;
use vme_object::Object;

impl Object for ByteMemory {
    ghost use Rattle.vme_memory.specs.Locals.{board_step};

    type Cmd = BoardCmd;

    type Reply = Reply;

    ghost step = { board_step };

    fn apply(&mut self, cmd: &BoardCmd) -> Reply {
        self.local(cmd)
    }
}
