//! The faults of a head, one cause each.

ghost use Rattle.std.specs.Prelude.{◌≡◌, ◌↔◌, None, Some};
ghost use Rattle.ox_http.specs.Faults.{HasOneLength, IsTooLong, LacksLength};
ghost use Rattle.ox_http.specs.First.{fault_of};
ghost use Rattle.ox_http.specs.Head.{Head};

/// A head fails with 400 exactly where its lengths aren't one; with 411 exactly where they are, and
/// it lacks a length that it needs; with 413 exactly where neither is so, and its length is too
/// long; and else it has no fault (RFC 9112, section 6).
pub fn faults_are_the_first()
    ensures unclear { (head : Head) → (fault_of head ≡ Some 400) ↔ (HasOneLength head → ⊥) }
    ensures lacking { (head : Head)
        → (fault_of head ≡ Some 411) ↔ (HasOneLength head × LacksLength head) }
    ensures long { (head : Head) → (fault_of head ≡ Some 413)
        ↔ (HasOneLength head × (LacksLength head → ⊥) × IsTooLong head) }
    ensures none { (head : Head) → (fault_of head ≡ None)
        ↔ (HasOneLength head × (LacksLength head → ⊥) × (IsTooLong head → ⊥)) }
{}
