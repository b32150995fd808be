ghost use Rattle.std.specs.Prelude.{◌≡◌, ℕ, List};
ghost use Rattle.dlupdate.specs.Runs.{Contents, Comes};

/// A run comes to one status and one text, unless a file can't be read: these are a function of the words and the files' contents.
pub fn runs_come_to_one()
    ensures { (contents : Contents) (words : List (List ℕ)) (status other : ℕ) (printed said : List ℕ) → Comes contents words status printed
        → Comes contents words other said → ¬ (status ≡ 6) → ¬ (other ≡ 6) → (status ≡ other) × (printed ≡ said) }
{}
