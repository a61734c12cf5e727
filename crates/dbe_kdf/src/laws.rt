// What follows from the definitions alone. The functions do nothing; their contracts are the laws.

ghost use Rattle.std.specs.Prelude.{◌≡◌, ℕ, ◌<◌, ◌≤◌, All, List, [], length, replicate, take};
ghost use Rattle.sha2.specs.Sha512.{sha384, sha512};
ghost use Rattle.dbe_kdf.specs.Hkdf.{hkdf};
ghost use Rattle.dbe_kdf.specs.Hmac.{hmac};

/// The first bytes of HKDF's output do not depend on how many are asked for, and an empty salt is 64 zero bytes.
pub fn hkdf_law()
    ensures prefix { (ikm salt info : List ℕ) (m n : ℕ) → m ≤ n
        → take m (hkdf ikm salt info n) ≡ hkdf ikm salt info m }
    ensures empty_salt { (ikm info : List ℕ) (n : ℕ)
        → hkdf ikm [] info n ≡ hkdf ikm (replicate 64 0) info n }
{}

/// HMAC-SHA-384 gives 48 bytes, HMAC-SHA-512 gives 64, and HKDF as many as are asked for.
pub fn output_law()
    ensures hmac384_length { (key text : List ℕ) → length (hmac sha384 key text) ≡ 48 }
    ensures hmac384_bytes { (key text : List ℕ) → All (λ b. b < 256) (hmac sha384 key text) }
    ensures hmac512_length { (key text : List ℕ) → length (hmac sha512 key text) ≡ 64 }
    ensures hmac512_bytes { (key text : List ℕ) → All (λ b. b < 256) (hmac sha512 key text) }
    ensures hkdf_length { (ikm salt info : List ℕ) (n : ℕ) → length (hkdf ikm salt info n) ≡ n }
    ensures hkdf_bytes { (ikm salt info : List ℕ) (n : ℕ)
        → All (λ b. b < 256) (hkdf ikm salt info n) }
{}
