//! Scripts over small collections.
use crate::collections::{GUIDE, MARKED_LINES, THREE_DOCUMENTS, WEIGHED};
use crate::keystrokes::KEYSTROKES;
use crate::{Worked, WorkedScript};

/// Each collection with its lines.
pub const SCRIPTS: &[WorkedScript] = &[
    WorkedScript {
        collection: THREE_DOCUMENTS,
        lines: KEYSTROKES,
    },
    NOTHING_FOUND,
    CAFE,
    ESCAPES,
    TITLES,
    LONG_WORDS,
    HEAVY_TITLES,
];

/// No documents: nothing is found.
const NOTHING_FOUND: WorkedScript = WorkedScript {
    collection: "",
    lines: &[Worked {
        line: "q=typ",
        reply: r#"{"completions":[],"facets":{},"hits":[],"total":{"completions":0,"hits":0}}"#,
    }],
};

/// The key text is decomposed and folded, the title stays.
const CAFE: WorkedScript = WorkedScript {
    collection: "café École",
    lines: &[
        // composed, and a capital
        Worked {
            line: "q=É",
            reply: SCHOOL,
        },
        // without its accent
        Worked {
            line: "q=e",
            reply: SCHOOL,
        },
    ],
};

const SCHOOL: &str = concat!(
    r#"{"completions":[{"docs":1,"word":""#,
    "e\u{301}cole",
    r#""}],"facets":{},"hits":[{"doc":0,"score":4,"title":"café École"}],"total":{"completions":1,"hits":1}}"#,
);

/// Quotes are escaped, and a facet's word joins the words of its value.
const ESCAPES: WorkedScript = WorkedScript {
    collection: GUIDE,
    lines: &[
        // a phrase across a dash
        Worked {
            line: "q=über-gui",
            reply: r#"{"completions":[{"docs":1,"word":"guide"}],"facets":{},"hits":[{"doc":0,"score":4,"title":"Müller's \"Über-Guide\": 2nd ed."}],"total":{"completions":1,"hits":1}}"#,
        },
        // an apostrophe in a value
        Worked {
            line: "q=publisher:o'r",
            reply: r#"{"completions":[{"docs":1,"word":"publisher:o_reilly_co"}],"facets":{},"hits":[{"doc":0,"score":2,"title":"Müller's \"Über-Guide\": 2nd ed."}],"total":{"completions":1,"hits":1}}"#,
        },
    ],
};

/// Marks, endings and lines without bytes are no part of a title.
const TITLES: WorkedScript = WorkedScript {
    collection: MARKED_LINES,
    lines: &[Worked {
        line: "q=",
        reply: r#"{"completions":[],"facets":{},"hits":[{"doc":0,"score":0,"title":"a"},{"doc":1,"score":0,"title":"b"}],"total":{"completions":0,"hits":2}}"#,
    }],
};

/// Scores are those of the weights line, which is no document.
const HEAVY_TITLES: WorkedScript = WorkedScript {
    collection: WEIGHED,
    lines: &[
        // a word of the text, and one of the title, which counts for more
        Worked {
            line: "q=a",
            reply: r#"{"completions":[{"docs":1,"word":"a"},{"docs":1,"word":"ab"}],"facets":{},"hits":[{"doc":0,"score":9,"title":"Ab"}],"total":{"completions":2,"hits":1}}"#,
        },
        Worked {
            line: "q=k:",
            reply: r#"{"completions":[{"docs":1,"word":"k:c"}],"facets":{},"hits":[{"doc":0,"score":3,"title":"Ab"}],"total":{"completions":1,"hits":1}}"#,
        },
    ],
};

/// Words of 121 letters: of a facet and of a text, each is cut at 120, and in a query it is refused there.
const LONG_WORDS: WorkedScript = WorkedScript {
    collection: concat!(
        "\tk=",
        "aaaaaaaaaaaaaaaaaaaaaaaaaaaaaaaaaaaaaaaaaaaaaaaaaaaaaaaaaaaaaaaaaaaaaaaaaaaaaaaaaaaaaaaaaaaaaaaaaaaaaaaaaaaaaaaaaaaaaaaa",
        "a\t",
        "aaaaaaaaaaaaaaaaaaaaaaaaaaaaaaaaaaaaaaaaaaaaaaaaaaaaaaaaaaaaaaaaaaaaaaaaaaaaaaaaaaaaaaaaaaaaaaaaaaaaaaaaaaaaaaaaaaaaaaaa",
        "a",
    ),
    lines: &[
        // the value
        Worked {
            line: "q=k:",
            reply: concat!(
                r#"{"completions":[{"docs":1,"word":"k:"#,
                "aaaaaaaaaaaaaaaaaaaaaaaaaaaaaaaaaaaaaaaaaaaaaaaaaaaaaaaaaaaaaaaaaaaaaaaaaaaaaaaaaaaaaaaaaaaaaaaaaaaaaaaaaaaaaaaaaaaaaaaa",
                r#""}],"facets":{},"hits":[{"doc":0,"score":2,"title":""}],"total":{"completions":1,"hits":1}}"#,
            ),
        },
        // 120 letters
        Worked {
            line: concat!(
                "q=",
                "aaaaaaaaaaaaaaaaaaaaaaaaaaaaaaaaaaaaaaaaaaaaaaaaaaaaaaaaaaaaaaaaaaaaaaaaaaaaaaaaaaaaaaaaaaaaaaaaaaaaaaaaaaaaaaaaaaaaaaaa",
            ),
            reply: concat!(
                r#"{"completions":[{"docs":1,"word":""#,
                "aaaaaaaaaaaaaaaaaaaaaaaaaaaaaaaaaaaaaaaaaaaaaaaaaaaaaaaaaaaaaaaaaaaaaaaaaaaaaaaaaaaaaaaaaaaaaaaaaaaaaaaaaaaaaaaaaaaaaaaa",
                r#""}],"facets":{},"hits":[{"doc":0,"score":1,"title":""}],"total":{"completions":1,"hits":1}}"#,
            ),
        },
        LONG_WORD,
    ],
};

/// A word of 121 letters is refused behind the 120th.
pub const LONG_WORD: Worked = Worked {
    line: concat!(
        "q=",
        "aaaaaaaaaaaaaaaaaaaaaaaaaaaaaaaaaaaaaaaaaaaaaaaaaaaaaaaaaaaaaaaaaaaaaaaaaaaaaaaaaaaaaaaaaaaaaaaaaaaaaaaaaaaaaaaaaaaaaaaa",
        "a",
    ),
    reply: r#"{"at":120,"error":"limit","which":"word"}"#,
};
