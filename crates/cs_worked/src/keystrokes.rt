//! Lines of a script over the three documents, and the replies to them: each feature of the language, and what is refused.
use crate::Worked;

/// All lines of this file, in an order in which some go on from those before.
pub const KEYSTROKES: &[Worked] = &[
    PREFIX,
    // Both must occur, and the last one is completed.
    Worked {
        line: "q=search+typ",
        reply: r#"{"completions":[{"docs":2,"word":"type"}],"facets":{},"hits":[{"doc":0,"score":5,"title":"Type less find more"},{"doc":1,"score":2,"title":"The CompleteSearch engine"}],"total":{"completions":1,"hits":2}}"#,
    },
    // An exact word: longer ones are not found.
    Worked {
        line: "q=type$",
        reply: r#"{"completions":[{"docs":2,"word":"type"}],"facets":{},"hits":[{"doc":0,"score":4,"title":"Type less find more"},{"doc":1,"score":1,"title":"The CompleteSearch engine"}],"total":{"completions":1,"hits":2}}"#,
    },
    // A phrase: `ahead` stands directly behind.
    Worked {
        line: "q=type-ahead",
        reply: r#"{"completions":[{"docs":1,"word":"ahead"}],"facets":{},"hits":[{"doc":1,"score":1,"title":"The CompleteSearch engine"}],"total":{"completions":1,"hits":1}}"#,
    },
    // The same phrase: a dash links as a dot does.
    Worked {
        line: "q=type.ahead",
        reply: r#"{"completions":[{"docs":1,"word":"ahead"}],"facets":{},"hits":[{"doc":1,"score":1,"title":"The CompleteSearch engine"}],"total":{"completions":1,"hits":1}}"#,
    },
    // Nearness: the other word that begins so stands 10 positions away.
    Worked {
        line: "q=lambda..typ",
        reply: r#"{"completions":[{"docs":1,"word":"typed"}],"facets":{},"hits":[{"doc":2,"score":4,"title":"Typed lambda calculi"}],"total":{"completions":1,"hits":1}}"#,
    },
    // Alternatives of one part.
    Worked {
        line: "q=typed|ahead",
        reply: r#"{"completions":[{"docs":1,"word":"ahead"},{"docs":1,"word":"typed"}],"facets":{},"hits":[{"doc":2,"score":4,"title":"Typed lambda calculi"},{"doc":1,"score":1,"title":"The CompleteSearch engine"}],"total":{"completions":2,"hits":2}}"#,
    },
    // An excluded last part has no completions.
    Worked {
        line: "q=typ+-search",
        reply: r#"{"completions":[],"facets":{},"hits":[{"doc":2,"score":4,"title":"Typed lambda calculi"}],"total":{"completions":0,"hits":1}}"#,
    },
    // Nothing positive scores.
    Worked {
        line: "q=-search",
        reply: r#"{"completions":[],"facets":{},"hits":[{"doc":2,"score":0,"title":"Typed lambda calculi"}],"total":{"completions":0,"hits":1}}"#,
    },
    // What is excluded stands in front, and the last part is completed.
    Worked {
        line: "q=-search+typ",
        reply: r#"{"completions":[{"docs":1,"word":"typed"},{"docs":1,"word":"types"}],"facets":{},"hits":[{"doc":2,"score":4,"title":"Typed lambda calculi"}],"total":{"completions":2,"hits":1}}"#,
    },
    // The authors of what is found by `search`, beside a word.
    Worked {
        line: "q=author[search]+typ",
        reply: r#"{"completions":[{"docs":2,"word":"type"}],"facets":{},"hits":[{"doc":0,"score":6,"title":"Type less find more"},{"doc":1,"score":3,"title":"The CompleteSearch engine"}],"total":{"completions":1,"hits":2}}"#,
    },
    // Every value of a facet, without its leading colon.
    Worked {
        line: "q=year:",
        reply: r#"{"completions":[{"docs":1,"word":"year:1940"},{"docs":1,"word":"year:2006"},{"docs":1,"word":"year:2007"}],"facets":{},"hits":[{"doc":0,"score":2,"title":"Type less find more"},{"doc":1,"score":2,"title":"The CompleteSearch engine"},{"doc":2,"score":2,"title":"Typed lambda calculi"}],"total":{"completions":3,"hits":3}}"#,
    },
    // Not begun: each document is a hit.
    Worked {
        line: "q=",
        reply: r#"{"completions":[],"facets":{},"hits":[{"doc":0,"score":0,"title":"Type less find more"},{"doc":1,"score":0,"title":"The CompleteSearch engine"},{"doc":2,"score":0,"title":"Typed lambda calculi"}],"total":{"completions":0,"hits":3}}"#,
    },
    // One hit, behind the first: the total counts all.
    Worked {
        line: "q=&h=1&o=1",
        reply: r#"{"completions":[],"facets":{},"hits":[{"doc":1,"score":0,"title":"The CompleteSearch engine"}],"total":{"completions":0,"hits":3}}"#,
    },
    // Not finished: the bar is dropped.
    Worked {
        line: "q=a|",
        reply: r#"{"completions":[{"docs":1,"word":"a"},{"docs":1,"word":"ahead"},{"docs":1,"word":"and"},{"docs":1,"word":"autocompletion"}],"facets":{},"hits":[{"doc":0,"score":1,"title":"Type less find more"},{"doc":1,"score":1,"title":"The CompleteSearch engine"}],"total":{"completions":4,"hits":2}}"#,
    },
    // Two facets are asked, of which no document has the second.
    Worked {
        line: "q=search&f=author,zzz",
        reply: r#"{"completions":[{"docs":2,"word":"search"}],"facets":{"author":[{"docs":2,"word":"author:bast"},{"docs":1,"word":"author:weber"}],"zzz":[]},"hits":[{"doc":0,"score":1,"title":"Type less find more"},{"doc":1,"score":1,"title":"The CompleteSearch engine"}],"total":{"completions":1,"hits":2}}"#,
    },
    SECOND_BAR,
    MANY_HITS,
    // A parameter without digits.
    Worked {
        line: "q=typ&h=",
        reply: r#"{"error":"param","param":"h"}"#,
    },
    // Two things are refused: parameters go before the query.
    Worked {
        line: "q=a||b&o=x",
        reply: r#"{"error":"param","param":"o"}"#,
    },
];

/// Three words begin so; equal scores go by document, equal counts by bytes.
pub const PREFIX: Worked = Worked {
    line: "q=typ",
    reply: r#"{"completions":[{"docs":2,"word":"type"},{"docs":1,"word":"typed"},{"docs":1,"word":"types"}],"facets":{},"hits":[{"doc":0,"score":4,"title":"Type less find more"},{"doc":2,"score":4,"title":"Typed lambda calculi"},{"doc":1,"score":1,"title":"The CompleteSearch engine"}],"total":{"completions":3,"hits":3}}"#,
};

/// Refused at the second bar.
pub const SECOND_BAR: Worked = Worked {
    line: "q=a||b",
    reply: r#"{"at":2,"error":"bad"}"#,
};

/// More hits are asked than may be.
pub const MANY_HITS: Worked = Worked {
    line: "q=typ&h=101",
    reply: r#"{"error":"param","param":"h"}"#,
};
