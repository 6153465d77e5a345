//! By how much the counts of two disks rise from call to call.
ghost use Rattle.std.specs.Prelude.{◌≡◌, ◌≤◌, ℕ, ◌+◌};
ghost use Rattle.disk_laws.specs.SoFar.{IsRise, IsJointRise};

/// A count that stands has risen by nothing, one rise behind another is their sum, and so it is of two disks together.
pub fn law_rises()
    ensures none { (given : ℕ) → IsRise given given 0 }
    ensures both { (a b c r s : ℕ) → IsRise a b r → IsRise b c s → IsRise a c (r + s) }
    ensures joint_none { (first second : ℕ) → IsJointRise first second first second 0 }
    ensures joint_both { (a b c d e f r s : ℕ) →
        IsJointRise a b c d r → IsJointRise c d e f s → IsJointRise a b e f (r + s) }
{}
