//! Laws of what the structs for C stand for.
ghost use Rattle.std.specs.Prelude.{◌≡◌, ◌<◌, ℕ, List, length, Ok};
ghost use Rattle.vme_cycle.specs.BlockBuffers.{BlockBytes};
ghost use Rattle.vme_cycle.specs.declared.request.Request.TheVariants as requests;
ghost use Rattle.vme_cycle.specs.Lawful.{Transfer, first_refusal, transfer_of};
ghost use Rattle.vme_cycle.specs.Plans.{signals_of};
ghost use Rattle.vme_cycle.specs.Requests.{count_of};
ghost use Rattle.vme_ffi.specs.Fills.{block_datum, fill_of, fill_with};

/// States that a block write can be given datum by datum, as `request_of` reads it: the fill with
/// any datum of its length has the first refusal of the block write, and the fill with datum `i`
/// has the signals of its datum `i`.
pub fn block_writes_are_given_by_data()
    ensures refused { (am addr n : ℕ) (bytes : BlockBytes) (datum : List ℕ) → length datum ≡ n →
        first_refusal (fill_of am addr n bytes datum) ≡ first_refusal (requests.BlockWrite am addr n bytes) }
    ensures lawful { (am addr n i : ℕ) (bytes : BlockBytes) (t : Transfer) →
        transfer_of (requests.BlockWrite am addr n bytes) ≡ Ok t → i < count_of t.request →
        transfer_of (fill_of am addr n bytes (block_datum bytes n i)) ≡ Ok (fill_with t am addr n bytes i) }
    ensures signals { (am addr n i : ℕ) (bytes : BlockBytes) (t : Transfer) →
        transfer_of (requests.BlockWrite am addr n bytes) ≡ Ok t →
        signals_of (fill_with t am addr n bytes i) i ≡ signals_of t i }
{}
