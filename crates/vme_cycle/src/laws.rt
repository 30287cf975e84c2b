ghost use Rattle.std.specs.Prelude.{◌≡◌, ◌+◌, ◌%◌, ◌^◌, ◌<◌, ℕ, List, length, All};
ghost use Rattle.vme_cycle.specs.Functions.{number_of, number_bytes, sum_of};

/// States that a number and its bytes are inverse. `len` bytes spell the number modulo 256 to the
/// power of `len`, and bytes are those of the number that they spell.
pub fn bytes_are_their_number()
    ensures number { (len n : ℕ) → number_of (number_bytes len n) ≡ n % 256 ^ len }
    ensures len { (len n : ℕ) → length (number_bytes len n) ≡ len }
    ensures each { (len n : ℕ) → All (λ byte. byte < 256) (number_bytes len n) }
    ensures bytes { (bytes : List ℕ) → All (λ byte. byte < 256) bytes →
        number_bytes (length bytes) (number_of bytes) ≡ bytes }
    ensures small { (bytes : List ℕ) → All (λ byte. byte < 256) bytes →
        number_of bytes < 256 ^ length bytes }
{}

/// States that the sum of a read-modify-write is the sum of the two numbers modulo 256 to the power
/// of the length of the first. The sum has that length.
pub fn sums_are_modulo()
    ensures value { (a b : List ℕ) →
        number_of (sum_of a b) ≡ (number_of a + number_of b) % 256 ^ length a }
    ensures len { (a b : List ℕ) → length (sum_of a b) ≡ length a }
{}
