//! Laws of what is known of the bytes of a board. Each function's contract is a law.
ghost use Rattle.std.specs.Prelude.{◌≡◌, ℕ, List, true, false, slice_get, IsTrue};
ghost use Rattle.vme_known.specs.declared.access.Access.{Access};
ghost use Rattle.vme_known.specs.declared.byte.Byte.{Byte};
ghost use Rattle.vme_known.specs.Histories.{Adds, IsHistory};
ghost use Rattle.vme_known.specs.Judging.{is_open, may_all_come};

/// States that accesses may come, one after another, exactly if some memory at the start that has the
/// known bytes explains all of them, with some unseen stores to open bytes between them.
pub fn accesses_that_may_come_are_a_history()
    ensures only { (bytes : List Byte) (accesses : List Access) →
        may_all_come bytes accesses ≡ true → IsHistory bytes accesses }
    ensures every { (bytes : List Byte) (accesses : List Access) →
        IsHistory bytes accesses → may_all_come bytes accesses ≡ true }
{}

/// States that nothing is added to accesses where no byte is open.
#[tactic(auto, using(crate::proofs::Explaining::nothing_added))]
pub fn closed_bytes_have_no_unseen_stores()
    ensures { (bytes : List Byte) (accesses more : List Access) →
        ((at : ℕ) → is_open (slice_get bytes at) ≡ false) →
        Adds (λ at. is_open (slice_get bytes at)) accesses more → more ≡ accesses }
{}
