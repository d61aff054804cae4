//! Types whose copies are equal to what they copy.

ghost use Rattle.std.specs.Prelude.{◌≡◌, IfOk};
ghost use Rattle.std.proofs.Common.{rules};

/// A copy is equal to what it copies. A type whose `Clone` is derived over such types needs only
/// `ghost exact = { Prim.search rules };`, with `rules` of `Rattle.std.proofs.Common`.
pub trait ExactClone: Clone {
    ghost exact: { (value copy : Self) → Self.is_clone value copy → copy ≡ value };
}

impl ExactClone for bool {
    ghost exact = { λ _ _ same. same };
}

impl ExactClone for u32 {
    ghost exact = { λ _ _ same. same };
}

impl ExactClone for u64 {
    ghost exact = { λ _ _ same. same };
}

impl ExactClone for i64 {
    ghost exact = { λ _ _ same. same };
}

impl ExactClone for () {
    ghost exact = { λ _ _ same. same };
}

impl<T: ExactClone> ExactClone for Option<T> {
    ghost exact = { Prim.search rules };
}

impl<A: ExactClone, B: ExactClone> ExactClone for (A, B) {
    ghost exact = { Prim.search rules };
}

impl<A: ExactClone, B: ExactClone, C: ExactClone> ExactClone for (A, B, C) {
    ghost exact = { Prim.search rules };
}
