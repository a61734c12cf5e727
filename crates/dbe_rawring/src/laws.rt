//! What wrapping and unwrapping promise together.

ghost use Rattle.std.specs.Prelude.{◌≡◌, ℕ, List, length};
ghost use Rattle.dbe_rawring.specs.Edk.{EdkParts};
ghost use Rattle.dbe_rawring.specs.Ring.{IsMine, IsRingFault, RawRingParts, Unwraps, intermediate_of, raw_edk};
ghost use Rattle.dbe_rawring.specs.Wrap.{UnwrapsInner, inner_wrap, signing_key};
ghost use Rattle.dbe_rawring.specs.declared.fault.RingFault.{RingFault};

/// What wraps a data key unwraps to it, and is the ring's.
pub fn unwraps_what_was_wrapped()
    ensures inner { (intermediate context data_key : List ℕ) → length data_key ≡ 32
        → UnwrapsInner intermediate context (inner_wrap intermediate context data_key) data_key }
    ensures unwraps { (ring : RawRingParts) (context data_key drawn : List ℕ) → length data_key ≡ 32
        → length drawn ≡ 44
        → Unwraps ring context (raw_edk ring context data_key drawn) data_key (signing_key (intermediate_of drawn)) }
    ensures mine { (ring : RawRingParts) (context data_key drawn : List ℕ) → length data_key ≡ 32
        → length drawn ≡ 44 → IsMine ring (raw_edk ring context data_key drawn) }
{}

/// Nothing unwraps to two data keys, nor to two signing keys.
pub fn unwraps_to_one()
    ensures inner { (intermediate context wrapped a b : List ℕ) → UnwrapsInner intermediate context wrapped a
        → UnwrapsInner intermediate context wrapped b → a ≡ b }
    ensures data_key { (ring : RawRingParts) (context : List ℕ) (edk : EdkParts) (a b s t : List ℕ)
        → Unwraps ring context edk a s → Unwraps ring context edk b t → a ≡ b }
    ensures signing { (ring : RawRingParts) (context : List ℕ) (edk : EdkParts) (a b s t : List ℕ)
        → Unwraps ring context edk a s → Unwraps ring context edk b t → s ≡ t }
{}

/// What unwraps has no fault.
pub fn unwraps_or_faults()
    ensures { (f : RingFault) (ring : RawRingParts) (context : List ℕ) (edk : EdkParts) (data_key signing : List ℕ)
        → IsRingFault f ring context edk → Unwraps ring context edk data_key signing → ⊥ }
{}
