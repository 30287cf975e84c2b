ghost use Rattle.std.specs.Prelude.{◌≡◌, ◌+◌, ◌≤◌, ◌<◌, ◌%◌, ◌⊎◌, ℕ, IsTrue, Some, List, length, slice_get, slice_range};
ghost use Rattle.vme_cycle.specs.Requests.{count_of, function_of, address_of};
ghost use Rattle.vme_cycle.specs.Lawful.{Transfer, IsLawfulTransfer};
ghost use Rattle.vme_cycle.specs.Plans.{signals_of};
ghost use Rattle.vme_memory.specs.declared.reply.Reply.TheVariants.{Bytes, Done};
ghost use Rattle.vme_memory.specs.Boards.{Board, bytes_after_write};
ghost use Rattle.vme_memory.specs.Steps.{Command, command_of, step, cycle, LocalRead, LocalWrite, Read, Write, BlockRead, BlockWrite};
ghost use Rattle.vme_memory.specs.Data.{datum_command, reply_len, datum_reply_len, has_form};

/// States that a write leaves the new bytes at their place, and every other byte and the number of
/// bytes unchanged.
pub fn bytes_are_overwritten()
    ensures same { (bytes new : List ℕ) (at : ℕ) → at + length new ≤ length bytes →
        slice_range (bytes_after_write bytes at new) at (at + length new) ≡ new }
    ensures others { (bytes new : List ℕ) (at k : ℕ) → at + length new ≤ length bytes →
        (k < at) ⊎ (at + length new ≤ k) →
        slice_get (bytes_after_write bytes at new) k ≡ slice_get bytes k }
    ensures len { (bytes new : List ℕ) (at : ℕ) → at + length new ≤ length bytes →
        length (bytes_after_write bytes at new) ≡ length bytes }
{}

/// States that a board that replied `Done` to a write returns the same bytes to a read at the same
/// place: by a cycle, in a block, and by the local port.
#[tactic(auto, using(crate::proofs::Again::written_again, crate::proofs::Again::block_again, crate::proofs::Again::local_again))]
pub fn written_is_read()
    ensures single { (board : Board) (at : ℕ) (new : List ℕ) →
        (step board (Write at new)).0 ≡ Done →
        (step (step board (Write at new)).1 (Read at (length new))).0 ≡ Bytes (record { items = new }) }
    ensures block { (board : Board) (at : ℕ) (new : List ℕ) →
        (step board (BlockWrite at new)).0 ≡ Done →
        (step (step board (BlockWrite at new)).1 (BlockRead at (length new))).0
        ≡ Bytes (record { items = new }) }
    ensures local { (board : Board) (at : ℕ) (new : List ℕ) →
        (step board (LocalWrite at new)).0 ≡ Done →
        (step (step board (LocalWrite at new)).1 (LocalRead at (length new))).0
        ≡ Bytes (record { items = new }) }
{}

/// States that the cycle of each datum of a lawful transfer is the command of its request, on every
/// board: a read, a write or a read-modify-write of its bytes, single or in a block. `at` is the
/// offset of the datum's first byte and has the place of its address in the group of four.
#[tactic(auto, using(crate::proofs::lemmas::Data::own_command, crate::proofs::lemmas::Data::own_cycle))]
pub fn cycles_are_the_requests_own()
    ensures command { (t : Transfer) (i at : ℕ) → IsLawfulTransfer t → i < count_of t.request →
        at % 4 ≡ address_of t.request i % 4 →
        command_of (signals_of t i) at (function_of t.request) ≡ Some (datum_command t.request i at) }
    ensures cycle { (t : Transfer) (board : Board) (i at : ℕ) →
        IsLawfulTransfer t → i < count_of t.request → at % 4 ≡ address_of t.request i % 4 →
        cycle board (signals_of t i) at (function_of t.request) ≡ step board (datum_command t.request i at) }
{}

/// States that each reply matches its command. A read and a read-modify-write have a reply with the
/// requested number of bytes, a write has the reply `Done`, and each may have a bus error. For a
/// datum of a lawful transfer this holds at any offset.
#[tactic(auto, using(crate::proofs::lemmas::Data::reply_form, crate::proofs::lemmas::Data::datum_form))]
pub fn replies_have_their_form()
    ensures command { (board : Board) (command : Command) →
        IsTrue (has_form (reply_len command) (step board command).0) }
    ensures datum { (t : Transfer) (board : Board) (i at : ℕ) →
        IsLawfulTransfer t → i < count_of t.request →
        IsTrue (has_form (datum_reply_len t.request) (cycle board (signals_of t i) at (function_of t.request)).0) }
{}
