//! Laws of serving. Each is the contract of a function that does nothing.
ghost use Rattle.std.specs.Prelude.{◌≡◌, ◌⊎◌, ◌++◌, ℕ, List, [], ◌∷◌, map};
ghost use Rattle.cs_model.specs.Corpus.{Corpus};
ghost use Rattle.cs_model_serving.specs.Connections.{serve};
ghost use Rattle.cs_model_serving.specs.Responses.{Response, response_to, too_long};
ghost use Rattle.cs_hub.specs.DueReads.{heads_on};

/// What is served of bytes is the response to each of their heads in order, and behind them maybe that to a head that is too long.
pub fn heads_are_served()
    ensures { (k : Corpus) (b : List ℕ) → (later : List Response) × ((serve k b).responses ≡ map (response_to k) (heads_on b) ++ later)
        × ((later ≡ []) ⊎ (later ≡ too_long ∷ [])) }
{}
