ghost use Rattle.std.specs.Prelude.{◌≡◌, ℕ, List};
ghost use Rattle.dl_runs.specs.Classes.{IsLabel, IsLongest, IsTag};
ghost use Rattle.dl_runs.specs.Quotes.{IsQuoted};

/// A string ends in one place.
pub fn quoted_one()
    ensures { (raw v w m n : List ℕ) → IsQuoted raw v m → IsQuoted raw w n → (v ≡ w) × (m ≡ n) }
{}

/// A tag ends in one place.
pub fn tag_one()
    ensures { (raw v w m n : List ℕ) → IsLongest IsTag raw v m → IsLongest IsTag raw w n → (v ≡ w) × (m ≡ n) }
{}

/// A label ends in one place.
pub fn label_one()
    ensures { (raw v w m n : List ℕ) → IsLongest IsLabel raw v m → IsLongest IsLabel raw w n → (v ≡ w) × (m ≡ n) }
{}
