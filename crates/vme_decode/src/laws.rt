ghost use Rattle.std.specs.Prelude.{◌≡◌, ◌↔◌, ◌%◌, ℕ, List, Some, None, IsTrue, slice_get};
ghost use Rattle.vme_am.specs.declared.code.Space.{Space};
ghost use Rattle.vme_am.specs.Codes.{CodeRow};
ghost use Rattle.vme_cycle.specs.SignalLines.{SignalLines, first_byte};
ghost use Rattle.vme_decode.specs.declared.entry.Entry.{Entry};
ghost use Rattle.vme_decode.specs.Entries.{covers, overlap};
ghost use Rattle.vme_decode.specs.Lawful.{first_refusal};
ghost use Rattle.vme_decode.specs.Select.{selection_at, selection, RespondsAt, IsSelected};

/// States that two entries overlap exactly where both cover some address of some space.
#[tactic(auto, using(crate::proofs::Ranges::overlap_shared, crate::proofs::Ranges::shared_overlap))]
pub fn overlap_is_a_shared_address()
    ensures { (a b : Entry) → IsTrue (overlap a b) ↔
        ((space : Space) × (addr : ℕ) × IsTrue (covers a space addr) × IsTrue (covers b space addr)) }
{}

/// States that in a map without a refusal at most one entry covers an address of a space.
#[tactic(auto, using(crate::proofs::Apart::one_place))]
pub fn one_entry_covers()
    ensures { (entries : List Entry) (i j : ℕ) (a b : Entry) (space : Space) (addr : ℕ) →
        first_refusal entries ≡ None →
        slice_get entries i ≡ Some a → slice_get entries j ≡ Some b →
        IsTrue (covers a space addr) → IsTrue (covers b space addr) → i ≡ j }
{}

/// States that in a map without a refusal `selection` is the one entry that the cycle selects, at
/// any position in the list.
pub fn selected_is_the_one()
    ensures { (entries : List Entry) (s : SignalLines) (place offset : ℕ) →
        first_refusal entries ≡ None →
        (selection entries s ≡ Some (place, offset)) ↔ IsSelected entries s place offset }
{}

/// States that the code of a cycle and the address of its first byte determine what the cycle
/// selects. In a map without a refusal that is the one entry that contains the address in the
/// code's space and admits the code. The offset has the address's remainder modulo four.
pub fn selection_goes_by_the_address()
    ensures first_byte { (entries : List Entry) (s : SignalLines) (addr : ℕ) →
        first_byte s ≡ Some addr → selection entries s ≡ selection_at entries s.am addr }
    ensures one { (entries : List Entry) (code : CodeRow) (addr place offset : ℕ) →
        first_refusal entries ≡ None →
        (selection_at entries code addr ≡ Some (place, offset)) ↔ RespondsAt entries code addr place offset }
    ensures remainder { (entries : List Entry) (code : CodeRow) (addr place offset : ℕ) →
        first_refusal entries ≡ None → selection_at entries code addr ≡ Some (place, offset) →
        offset % 4 ≡ addr % 4 }
{}
