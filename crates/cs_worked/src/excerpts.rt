//! Scripts over small collections, and the replies whose hits are shown with excerpts.
use crate::collections::THREE_DOCUMENTS;
use crate::{Worked, WorkedScript};

/// Each collection with its lines.
pub const EXCERPTED: &[WorkedScript] = &[WORDS_OF_PARTS, RUNS];

/// A word of a title serves none, nor does one of an excluded part, of a facet, or of a document without such a part; a refused line has no hits.
const WORDS_OF_PARTS: WorkedScript = WorkedScript {
    collection: THREE_DOCUMENTS,
    lines: &[
        Worked {
            line: "q=search+typ",
            reply: r#"{"completions":[{"docs":2,"word":"type"}],"facets":{},"hits":[{"doc":0,"excerpt":"[search]","score":5,"title":"Type less find more"},{"doc":1,"excerpt":"[type] ahead [search]","score":2,"title":"The CompleteSearch engine"}],"total":{"completions":1,"hits":2}}"#,
        },
        Worked {
            line: "q=lambda",
            reply: r#"{"completions":[{"docs":1,"word":"lambda"}],"facets":{},"hits":[{"doc":2,"excerpt":"","score":4,"title":"Typed lambda calculi"}],"total":{"completions":1,"hits":1}}"#,
        },
        Worked {
            line: "q=typ+-search",
            reply: r#"{"completions":[],"facets":{},"hits":[{"doc":2,"excerpt":"[types]","score":4,"title":"Typed lambda calculi"}],"total":{"completions":0,"hits":1}}"#,
        },
        // a join serves no word, and a facet that is asked stands as ever
        Worked {
            line: "q=author[search]+a&f=year",
            reply: r#"{"completions":[{"docs":1,"word":"a"},{"docs":1,"word":"ahead"},{"docs":1,"word":"and"},{"docs":1,"word":"autocompletion"}],"facets":{"year":[{"docs":1,"word":"year:2006"},{"docs":1,"word":"year:2007"}]},"hits":[{"doc":0,"excerpt":"[autocompletion]","score":3,"title":"Type less find more"},{"doc":1,"excerpt":"[ahead]","score":3,"title":"The CompleteSearch engine"}],"total":{"completions":4,"hits":2}}"#,
        },
        Worked {
            line: "q=a||b",
            reply: r#"{"at":2,"error":"bad"}"#,
        },
    ],
};

/// The shortest run, of equal ones the first, and at most 32 words of it.
const RUNS: WorkedScript = WorkedScript {
    collection: concat!(
        "t\t\ta x b x x a b\n",
        "t\t\ta b a b\n",
        "t\t\ta x x x x x x x x x x x x x x x x x x x x x x x x x x x x x x x x x x x x x x x x b\n",
    ),
    lines: &[Worked {
        line: "q=a+b",
        reply: r#"{"completions":[{"docs":3,"word":"b"}],"facets":{},"hits":[{"doc":0,"excerpt":"[a] [b]","score":2,"title":"t"},{"doc":1,"excerpt":"[a] [b]","score":2,"title":"t"},{"doc":2,"excerpt":"[a] x x x x x x x x x x x x x x x x x x x x x x x x x x x x x x x","score":2,"title":"t"}],"total":{"completions":1,"hits":3}}"#,
    }],
};
