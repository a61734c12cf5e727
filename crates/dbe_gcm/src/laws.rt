//! What sealing and opening promise together.

ghost use Rattle.std.specs.Prelude.{◌≡◌, ℕ, ◌<◌, ◌++◌, All, List, drop, length, take};
ghost use Rattle.dbe_gcm.specs.Gcm.{gcm, streamed, tag_of};

/// What was sealed has the tag that opening asks for, and deciphers to the same bytes.
pub fn opens_what_was_sealed()
    ensures tag { (key iv aad text : List ℕ)
        → tag_of key iv aad (gcm key iv aad text).ciphertext ≡ (gcm key iv aad text).tag }
    ensures text { (key iv aad text : List ℕ) → streamed key iv (gcm key iv aad text).ciphertext ≡ text }
{}

/// A ciphertext is as long as its text, and a tag has 16 bytes: the two joined are cut apart at the text's length.
/// The tag is bytes, and so is the ciphertext of bytes.
pub fn cuts_what_was_sealed()
    ensures ciphertext_length { (key iv aad text : List ℕ)
        → length (gcm key iv aad text).ciphertext ≡ length text }
    ensures tag_length { (key iv aad text : List ℕ) → length (gcm key iv aad text).tag ≡ 16 }
    ensures ciphertext_bytes { (key iv aad text : List ℕ) → All (λ b. b < 256) text
        → All (λ b. b < 256) (gcm key iv aad text).ciphertext }
    ensures tag_bytes { (key iv aad text : List ℕ) → All (λ b. b < 256) (gcm key iv aad text).tag }
    ensures ciphertext { (key iv aad text : List ℕ) → let sealed = gcm key iv aad text in
        take (length text) (sealed.ciphertext ++ sealed.tag) ≡ sealed.ciphertext }
    ensures tag { (key iv aad text : List ℕ) → let sealed = gcm key iv aad text in
        drop (length text) (sealed.ciphertext ++ sealed.tag) ≡ sealed.tag }
{}

/// A ciphertext with the tag that opening asks for is what sealing makes of the deciphered bytes, and of no others.
pub fn seals_what_opens()
    ensures sealed { (key iv aad ciphertext : List ℕ) → gcm key iv aad (streamed key iv ciphertext)
        ≡ record { ciphertext = ciphertext; tag = tag_of key iv aad ciphertext } }
    ensures no_other { (key iv aad text ciphertext : List ℕ) → (gcm key iv aad text).ciphertext ≡ ciphertext
        → text ≡ streamed key iv ciphertext }
{}
