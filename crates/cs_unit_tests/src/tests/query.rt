//! What no clause says: that `parse` gives queries where there is memory, and that the definitions
//! mean what the language's description says of its examples.
use crate::tests::rows::{Long, lines_are_told, long_are_told, repeated, same, shown};
use cs_base::{Atom, Chain, Key, Keys, Link, MAX_PARTS, Memory, Narrower, Query, Text};
use cs_query::{QueryFault, Which, keys, parse, print};
use std::alloc::Global;
use std::test::Fail;

// A text, and its query or its refusal as `told` writes it.
const QUERIES: &str = "
 =>
typ se => typ se
a- b => a b
a--b => a b
a .b => a b
a -b => a -b
- =>
- a => a
a.b|c$ => a.b|c$
a| => a
type-ahead => type.ahead
type..ahead => type..ahead
author:Bast.x => :author:bast x
author:hans-pe => :author:hans_pe
author:bast$ => :author:bast$
http://x => :http: x
a.k:b => a.:k:b
author[] => author[]
author[a b => author[##]
-k[a|]-b => -k[#].b
\u{C9}cole|STRASSE => e\u{301}cole|strasse
10:30 => Bad { at: 2 }
| => Bad { at: 0 }
a$b => Bad { at: 2 }
a$$ => Bad { at: 2 }
a| b => Bad { at: 2 }
a||b => Bad { at: 2 }
a|-b => Bad { at: 2 }
author:$ => Bad { at: 7 }
1a: => Bad { at: 2 }
abcdefghijklmnopq: => Bad { at: 17 }
a] => Bad { at: 1 }
a[b]c => Bad { at: 4 }
k:v[ => Bad { at: 3 }
\u{E9}: => Bad { at: 3 }
a[b[c[d[e => Limit { at: 7, which: Depth }
a|a|a|a|a|a|a|a|a|a|a|a|a|a|a|a|a|a|a|a|a|a|a|a|a|a|a|a|a|a|a|a|a => Limit { at: 64, which: Atoms }
";

// A text, and the canonical text of its query, which is that of its own query too.
const PRINTED: &str = "
 =>
typ se => typ se
  typ ,se   => typ se
a- b => a b
a--b => a b
a .b => a b
a -b => a -b
-a|b => -a|b
- =>
a.b|c$ => a.b|c$
a| => a
type.ahead => type.ahead
type-ahead => type.ahead
type..ahead => type..ahead
author:Bast.x => author:bast x
author:hans-pe => author:hans_pe
author:bast$ => author:bast$
http://x => http: x
a.k:b => a.k:b
k:b|k: => k:b|k:
author[] => author[]
author[a b => author[a b]
-k[a|]-b => -k[a].b
a[b[c[d => a[b[c[d]]]
10 => 10
\u{C9}cole|STRASSE => e\u{301}cole|strasse
";

// A text, and its keys as `told_keys` writes them.
const KEYS: &str = "
 => ;
typ => typ; 2=ty 1=t
search typ => search typ; 2=search ty 1=search t <search
typ search -x => typ search -x; <typ search
type$ => type$;
a b|cd => a b|cd; <a
ab.cd => ab.cd; 1=ab.c
ab..cd$ => ab..cd$;
k:ab => k:ab; 4=k:a 3=k:
x k: => x k:; <x
k[ab] => k[ab];
k[ab] cd => k[ab] cd; 1=k[ab] c <k[ab]
\u{E9}b => e\u{301}b; 3=e\u{301} 1=e
k:\u{E9} => k:e\u{301}; 4=k:e 3=k:
";

// Long texts, and why they are refused, where they are.
const LONG: &[Long] = &[
    ("", "a", 120, "", ""),
    ("", "a", 121, "", "Limit { at: 120, which: Word }"),
    ("k:", "-", 120, "", ""),
    ("k:", "-", 121, "", "Limit { at: 122, which: Word }"),
    ("", " ", 1024, "", ""),
    ("", " ", 1025, "", "Limit { at: 1024, which: Query }"),
    ("a[", " ", 1021, "", ""),
    ("a[", " ", 1022, "", "Limit { at: 1023, which: Query }"),
    ("a[]", " ", 1021, "", ""),
];

#[test]
fn texts_are_read_as_the_description_says(rt: HostRuntime) -> Result<(), Fail> {
    let alloc = rt.alloc();
    lines_are_told(&rt, alloc, &[QUERIES], told)?;
    lines_are_told(&rt, alloc, &[PRINTED], printed_twice)?;
    lines_are_told(&rt, alloc, &[KEYS], told_keys)?;
    long_are_told(&rt, alloc, LONG, refusal)
}

// A query of the most parts, and one of a word more.
#[test]
fn a_word_behind_the_most_parts_is_refused(rt: HostRuntime) -> Result<(), Fail> {
    let alloc = rt.alloc();
    let most = repeated(alloc, "a", " a", MAX_PARTS - 1, "")?;
    same(
        &rt,
        &fault_of(alloc, most.as_str()),
        &None,
        "the most parts",
    );
    let more = repeated(alloc, "a", " a", MAX_PARTS, "")?;
    let want = QueryFault::Limit {
        at: 2 * MAX_PARTS as u32,
        which: Which::Parts,
    };
    same(
        &rt,
        &fault_of(alloc, more.as_str()),
        &Some(want),
        "a part too many",
    );
    Ok(())
}

fn fault_of(alloc: Global, text: &str) -> Option<QueryFault> {
    parse(alloc, text).err()
}

fn refusal(alloc: Global, text: &str) -> Result<Text, Memory> {
    match fault_of(alloc, text) {
        None => Ok(Text::new(alloc)),
        Some(fault) => shown(alloc, &fault),
    }
}

fn told(alloc: Global, text: &str) -> Result<Text, Memory> {
    match parse(alloc, text) {
        Ok(query) => {
            let mut out = Text::new(alloc);
            tell_query(&mut out, &query)?;
            Ok(out)
        }
        Err(fault) => shown(alloc, &fault),
    }
}

// The canonical text, and behind a bar that of its own query, where it is another one.
fn printed_twice(alloc: Global, text: &str) -> Result<Text, Memory> {
    let mut once = printed(alloc, text)?;
    let again = printed(alloc, once.as_str())?;
    if again.as_str() != once.as_str() {
        once.push_str(" | ")?;
        once.push_str(again.as_str())?;
    }
    Ok(once)
}

fn printed(alloc: Global, text: &str) -> Result<Text, Memory> {
    match parse(alloc, text) {
        Ok(query) => print(alloc, &query),
        Err(fault) => shown(alloc, &fault),
    }
}

fn told_keys(alloc: Global, text: &str) -> Result<Text, Memory> {
    match parse(alloc, text) {
        Ok(query) => tell_keys(alloc, &keys(alloc, &query)?),
        Err(fault) => shown(alloc, &fault),
    }
}

// The query's own key, the narrower ones, each behind its cut, and that without the last part.
fn tell_keys(alloc: Global, keys: &Keys) -> Result<Text, Memory> {
    let mut out = Text::from_str(alloc, text_of(&keys.same))?;
    out.push(';')?;
    tell_narrow(alloc, &mut out, keys.narrow.as_slice())?;
    if let Some(key) = &keys.extend {
        out.push_str(" <")?;
        out.push_str(text_of(key))?;
    }
    Ok(out)
}

fn tell_narrow(alloc: Global, out: &mut Text, narrow: &[Narrower]) -> Result<(), Memory> {
    for narrower in narrow {
        let key = text_of(&narrower.key);
        let told = format!(in alloc; " {}={key}", narrower.cut)?;
        out.push_str(told.as_str())?;
    }
    Ok(())
}

fn text_of(key: &Key) -> &str {
    str::from_utf8(key.bytes()).unwrap_or("no text")
}

/// The parts with a space between them, alternatives with a bar, links as signs; of a join a # for each of its parts.
pub(crate) fn tell_query(out: &mut Text, query: &Query) -> Result<(), Memory> {
    for (i, part) in query.parts.as_slice().iter().enumerate() {
        if i > 0 {
            out.push(' ')?;
        }
        if part.excluded {
            out.push('-')?;
        }
        for (j, chain) in part.chains.as_slice().iter().enumerate() {
            if j > 0 {
                out.push('|')?;
            }
            tell_chain(out, chain)?;
        }
    }
    Ok(())
}

fn tell_chain(out: &mut Text, chain: &Chain) -> Result<(), Memory> {
    tell_atom(out, &chain.first)?;
    for linked in chain.rest.as_slice() {
        match linked.link {
            Link::Phrase => out.push_str(".")?,
            Link::Near => out.push_str("..")?,
        }
        tell_atom(out, &linked.atom)?;
    }
    Ok(())
}

fn tell_atom(out: &mut Text, atom: &Atom) -> Result<(), Memory> {
    match atom {
        Atom::Prefix(word) => out.push_str(word.as_str()),
        Atom::Exact(word) => {
            out.push_str(word.as_str())?;
            out.push('$')
        }
        Atom::Join { name, inner } => {
            out.push_str(name.as_str())?;
            out.push('[')?;
            for _ in inner.parts.as_slice() {
                out.push('#')?;
            }
            out.push(']')
        }
    }
}
