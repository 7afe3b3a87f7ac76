//! What no clause says: that with memory at hand documents are added and deleted while a script asks.
use crate::runs::{built, run_over, same};
use cs_worked::THREE_DOCUMENTS;
use std::test::Fail;

const LIVE: &[&str] = &["live", "I", "Q"];

// Scripts over the three documents, and what is put for their lines.
const SCRIPTS: &[(&str, &str)] = &[
    (
        "q=types\nadd types of types\nq=types\ndel 2\nq=types\ndel 2\nq=\n",
        concat!(
            "{\"completions\":[{\"docs\":1,\"word\":\"types\"}],\"facets\":{},\"hits\":[{\"doc\":2,\"score\":1,\"title\":\"Typed lambda calculi\"}],\"total\":{\"completions\":1,\"hits\":1}}\n",
            "{\"doc\":3,\"state\":1}\n",
            "{\"completions\":[{\"docs\":2,\"word\":\"types\"}],\"facets\":{},\"hits\":[{\"doc\":3,\"score\":4,\"title\":\"types of types\"},{\"doc\":2,\"score\":1,\"title\":\"Typed lambda calculi\"}],\"total\":{\"completions\":1,\"hits\":2}}\n",
            "{\"state\":2}\n",
            "{\"completions\":[{\"docs\":1,\"word\":\"types\"}],\"facets\":{},\"hits\":[{\"doc\":3,\"score\":4,\"title\":\"types of types\"}],\"total\":{\"completions\":1,\"hits\":1}}\n",
            "{\"error\":\"no document\"}\n",
            "{\"completions\":[],\"facets\":{},\"hits\":[{\"doc\":0,\"score\":0,\"title\":\"Type less find more\"},{\"doc\":1,\"score\":0,\"title\":\"The CompleteSearch engine\"},{\"doc\":3,\"score\":0,\"title\":\"types of types\"}],\"total\":{\"completions\":0,\"hits\":3}}\n",
        ),
    ),
    (
        "add Church\tauthor=Bast\nq=author:b\nadd x\ty\ndel x\nadd \n",
        concat!(
            "{\"doc\":3,\"state\":1}\n",
            "{\"completions\":[{\"docs\":3,\"word\":\"author:bast\"}],\"facets\":{},\"hits\":[{\"doc\":0,\"score\":2,\"title\":\"Type less find more\"},{\"doc\":1,\"score\":2,\"title\":\"The CompleteSearch engine\"},{\"doc\":3,\"score\":2,\"title\":\"Church\"}],\"total\":{\"completions\":1,\"hits\":3}}\n",
            "{\"error\":\"document\",\"rule\":\"bad facet\"}\n",
            "{\"error\":\"change\"}\n",
            "{\"error\":\"change\"}\n",
        ),
    ),
];

#[test]
fn documents_come_and_go_while_a_script_asks(rt: HostRuntime) -> Result<(), Fail> {
    let alloc = rt.alloc();
    for (script, out) in SCRIPTS {
        let mut files = built(alloc, THREE_DOCUMENTS, script.as_bytes())?;
        let left = run_over(alloc, LIVE, &mut files)?;
        let put = (left.status, left.out.as_slice(), left.err.as_slice());
        same(&rt, &put, &(0, out.as_bytes(), b"".as_slice()), *script);
    }
    Ok(())
}
