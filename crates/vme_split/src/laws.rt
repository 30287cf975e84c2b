//! Laws of parts.
ghost use Rattle.std.specs.Prelude.{◌≡◌, ℕ, ◌≤◌, [], ◌∷◌, All, IsTrue};
ghost use Rattle.vme_memory.specs.Classes.{is_local_len};
ghost use Rattle.vme_memory.specs.declared.class.Width8To32.{Width8To32};
ghost use Rattle.vme_split.specs.Parts.{width_bytes, moves, parts, Cover, IsAligned};

/// States that the parts of an access are exactly its bytes, in order, that each is aligned and at
/// most as wide as the processor, and that an access which is so itself has no other part.
pub fn parts_are_the_bytes()
    ensures bytes { (width : Width8To32) (at n : ℕ) → n ≤ 4 → Cover at n (parts (width_bytes width) at n) }
    ensures aligned { (width : Width8To32) (at n : ℕ) → All (IsAligned (width_bytes width)) (parts (width_bytes width) at n) }
    ensures whole { (width : Width8To32) (at n : ℕ) → n ≤ 4 → IsTrue (is_local_len n) → IsTrue (moves n (width_bytes width) at n) →
        parts (width_bytes width) at n ≡ record { at = at; len = n } ∷ [] }
{}
