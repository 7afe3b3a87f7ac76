//! What is known of names: a list in which a name is found once.
ghost use Rattle.std.specs.Prelude.{◌≡◌, MatchOption, None};
ghost use Rattle.cs_system.specs.Known.{content_of, IsKnownAt};

/// A name, and what is known of it.
#[derive(Drop)]
pub struct Known<C> {
    /// The name.
    pub name: String,
    /// What is known of it.
    pub content: C,
}

/// Where a name stands in the list, if it is known.
pub fn known_place<C>(known: &[Known<C>], name: &str) -> Option<usize>
    ensures { MatchOption result (content_of known.now name.now ≡ None) (IsKnownAt known.now name.now) }
{
    for (i, entry) in known.iter().enumerate() {
        if entry.name.as_str() == name {
            return Some(i);
        }
    }
    None
}
