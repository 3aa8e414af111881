//! What holds of the definitions that the contracts cite. Nothing here does anything when it runs.
ghost use Rattle.std.specs.Prelude.{◌≡◌, ◌+◌, ◌*◌, ◌<◌, ◌≤◌, ℕ, pos, negsuc, Ok, Err, codes};
ghost use Rattle.dg_decimal.specs.Value.{nearest};
ghost use Rattle.dg_decimal.specs.Reading.{reading};
ghost use Rattle.dg_decimal.specs.Canonical.{canonical};

use crate::refusal::DecimalRefusal;

/// What is printed reads back as the value.
pub fn reads_back(value: i64)
    ensures { reading (canonical value) ≡ Ok value }
{}

/// Rounding takes the nearest whole number: the quotient is within one half of it, and a half itself goes up.
pub fn rounds_to_nearest()
    ensures above { (p q : ℕ) → 0 < q → 2 * (nearest p q * q) ≤ 2 * p + q }
    ensures below { (p q : ℕ) → 0 < q → 2 * p < 2 * (nearest p q * q) + q }
{}

/// Texts whose reading, and values whose text, the definitions compute.
#[tactic(auto, unfolding(crate::specs::Reading::number_in))]
pub fn worked_cases()
    ensures half_up { reading (codes "0.5e-9") ≡ Ok (pos 1) }
    ensures half_down { reading (codes "-.5E-9") ≡ Ok (negsuc 0) }
    ensures below_half { reading (codes "-0.0000000004") ≡ Ok (pos 0) }
    ensures greatest { reading (codes "9223372036.854775807") ≡ Ok (pos 9223372036854775807) }
    ensures past_greatest { reading (codes "9223372036.854775808") ≡ Err DecimalRefusal.Range }
    ensures least { reading (codes "-9223372036.854775808") ≡ Ok (negsuc 9223372036854775807) }
    ensures no_digit { reading (codes "+.e1") ≡ Err DecimalRefusal.NotNumber }
    ensures printed { canonical (negsuc 1250000000) ≡ codes "-1.250000001" }
    ensures printed_whole { canonical (pos 20000000000) ≡ codes "20" }
{}
