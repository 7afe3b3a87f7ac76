//! The numbers of a trial as they are promised, and laws. Each is the contract of a function that does nothing.
ghost use Rattle.std.specs.Prelude.{◌≡◌, ℕ, length};
ghost use Rattle.cs_model_trial.specs.Sessions.{texts};
ghost use Rattle.cs_model_trial.specs.Summary.{PlansAreCounted, SummariesAreOne};

use crate::sizes::*;

/// The numbers from which a trial is drawn, and how large it is.
pub fn trial_sizes()
    ensures multiplier { MULTIPLIER ≡ 6364136223846793005 }
    ensures increment { INCREMENT ≡ 1442695040888963407 }
    ensures syllables { SYLLABLES ≡ 16 }
    ensures words { WORDS ≡ 4096 }
    ensures lines { LINES ≡ 100 }
    ensures title_words { TITLE_WORDS ≡ 3 }
    ensures text_words { TEXT_WORDS ≡ 12 }
    ensures sessions { SESSIONS ≡ 20 }
    ensures typed_letters { TYPED_LETTERS ≡ 6 }
{}

/// Each trial asks 260 texts, has one summary, and each request has one of the four plans.
pub fn one_summary()
    ensures texts { (n : ℕ) → length (texts n) ≡ 260 }
    ensures counted { PlansAreCounted }
    ensures one { SummariesAreOne }
{}
