//! Laws about the definitions. Each is the contract of a function that does nothing.
ghost use Rattle.std.specs.Prelude.{◌≡◌, ◌≤◌, ℕ, List, length, take, IsAscii, encode_utf8_all};
ghost use Rattle.cs_model.specs.AnswersLaws.{AddFacetParts, AreTablesOfQueries};
ghost use Rattle.cs_model.specs.Ascii.{ascii_norm, ascii_words};
ghost use Rattle.cs_model.specs.CanonicalLaws.{AreReadAgain, AreDifferent, AreShort, AreNoLonger, KeepCounts};
ghost use Rattle.cs_model.specs.FirstRefusal.{AcceptedHaveNone, RefusedHaveOne};
ghost use Rattle.cs_model.specs.GrammarLaws.{HaveAllBytes, AreMaximal, PartsHaveChains, SpacesSeparate};
ghost use Rattle.cs_model.specs.KeyText.{norm};
ghost use Rattle.cs_model.specs.Refusals.{PrefixesAreAccepted, QueriesHaveFewParts};
ghost use Rattle.cs_model.specs.Words.{fitting, words};

/// On ASCII text the key text is the text in lower case, and the words are its runs of letters and digits.
pub fn ascii_text()
    ensures norm { (s : List ℕ) → IsAscii s → norm s ≡ ascii_norm s }
    ensures words { (s : List ℕ) → IsAscii s → words s ≡ ascii_words s }
{}

/// The tokens of a text have its bytes, and each is as long as it can be.
pub fn tokens_are_maximal()
    ensures bytes { HaveAllBytes }
    ensures maximal { AreMaximal }
{}

/// Each prefix, by whole characters, of an accepted key text is accepted.
pub fn prefixes_are_accepted()
    ensures { PrefixesAreAccepted }
{}

/// A query of the grammar has at most `MAX_PARTS` parts at its top.
pub fn queries_have_few_parts()
    ensures { QueriesHaveFewParts }
{}

/// Each part of a query of the grammar has an alternative, at its top.
pub fn parts_have_chains()
    ensures { PartsHaveChains }
{}

/// Where no bracket is open, a space ends what stands before it: what follows means what it means alone.
pub fn spaces_separate()
    ensures { SpacesSeparate }
{}

/// A facet's table is the table of a query: that with one more positive part behind it, which asks the words of the facet.
pub fn facets_are_tables()
    ensures parts { AddFacetParts }
    ensures tables { AreTablesOfQueries }
{}

/// Where text is cut, what is kept is the longest prefix of whole characters that has at most so many bytes.
pub fn whole_characters()
    ensures fits { (room : ℕ) (cs : List ℕ) → length (encode_utf8_all (fitting room cs)) ≤ room }
    ensures prefix { (room : ℕ) (cs : List ℕ) → fitting room cs ≡ take (length (fitting room cs)) cs }
    ensures longest { (room : ℕ) (cs : List ℕ) (n : ℕ) → length (encode_utf8_all (take n cs)) ≤ room → length (take n cs) ≤ length (fitting room cs) }
{}

/// A key text is accepted, or it is refused at one place alone and for one reason: its first refusal.
pub fn first_refusals()
    ensures accepted { AcceptedHaveNone }
    ensures refused { RefusedHaveOne }
{}

/// The canonical text of a query of the grammar, read as a key text, is accepted and means that query. So different queries have
/// different canonical texts. It is within each limit that a text of the query is within: no longer than that text, each bracket that
/// is open at its end counted as one byte more, with as many parts and atoms.
pub fn canonical_texts()
    ensures read_again { AreReadAgain }
    ensures different { AreDifferent }
    ensures short { AreShort }
    ensures no_longer { AreNoLonger }
    ensures counts { KeepCounts }
{}
