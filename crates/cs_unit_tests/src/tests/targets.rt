//! What no clause says: that `request` gives requests where there is memory, and that the definitions mean what the
//! description of the parameters says of its examples.
use crate::tests::query::tell_query;
use crate::tests::rows::{lines_are_told, repeated, same, shown};
use cs_base::{MAX_PARTS, Memory, Text};
use cs_http::request;
use cs_query::{ReqFault, Request, Which};
use std::alloc::Global;
use std::test::Fail;

// A string of parameters, and its request or its first refusal as `told` writes it.
const TARGETS: &[&str] = &[DECODED, FIRST_OF_A_NAME, COUNTS, FACETS, LAST_THE_QUERY];

// Names and values are decoded before they are read, and what isn't an escape stands for itself.
const DECODED: &str = "
%71=a => 10 10 0;;a
%68=%31%30 => 10 10 0;;
q=a+b => 10 10 0;;a b
q=a%20b => 10 10 0;;a b
q=a%2Bb => 10 10 0;;a b
q=a.b%7Cc%26d => 10 10 0;;a.b|c d
q=a%C3%28b => 10 10 0;;a b
q=%C3%28 => 10 10 0;;
q=%C3%89cole => 10 10 0;;e\u{301}cole
q=a%zz => 10 10 0;;a zz
f=%61%2Cb => 10 10 0;a,b,;
";

// The first of each name counts.
const FIRST_OF_A_NAME: &str = "
 => 10 10 0;;
q=typ => 10 10 0;;typ
q=&h=1&o=1 => 1 10 1;;
q=a&q=b => 10 10 0;;a
q&q=b => 10 10 0;;
h=1&h=101 => 1 10 0;;
h=x&h=1 => no h
Q=a&x=1&&h=2& => 2 10 0;;
q=a=b => 10 10 0;;a b
";

// Counts are a few digits within their limits.
const COUNTS: &str = "
h=0&c=100&o=10000 => 0 100 10000;;
h=100&c=0&o=0 => 100 0 0;;
h=00010&c=00000&o=00001 => 10 0 1;;
q=typ&h=101 => no h
q=typ&h= => no h
h => no h
h=000010 => no h
h=+1 => no h
h=%2B1 => no h
h=-1 => no h
h=1a => no h
h=%D9%A3 => no h
c=101 => no c
c=1,0 => no c
o=10001 => no o
o=000000 => no o
";

// Facets are asked once each, by names in byte order.
const FACETS: &str = "
f=author,zzz => 10 10 0;author,zzz,;
f=zzz,author,zzz => 10 10 0;author,zzz,;
f=b,a1,a => 10 10 0;a,a1,b,;
f= => 10 10 0;;
f=, => 10 10 0;;
f=,b,,a, => 10 10 0;a,b,;
f=abcdefghijklmnop => 10 10 0;abcdefghijklmnop,;
f=h,g,f,e,d,c,b,a,a => 10 10 0;a,b,c,d,e,f,g,h,;
f=Author => no f
f=a+b => no f
f=a,+b => no f
f=1a => no f
f=%C3%A9 => no f
f=abcdefghijklmnopq => no f
f=a,b,c,d,e,f,g,h,i => no f
";

// The query is judged last, by its key text.
const LAST_THE_QUERY: &str = "
q=||&f=A&o=x&c=x&h=x => no h
q=||&f=A&o=x&c=x => no c
q=||&f=A&o=x => no o
q=||&f=A => no f
q=a||b&o=x => no o
q=a||b => Bad { at: 2 }
q=%C3%89: => Bad { at: 3 }
q=%C3: => Bad { at: 3 }
";

#[test]
fn targets_have_the_requests_of_the_description(rt: HostRuntime) -> Result<(), Fail> {
    lines_are_told(&rt, rt.alloc(), TARGETS, told)
}

#[test]
fn a_word_behind_the_most_parts_is_refused_at_its_place(rt: HostRuntime) -> Result<(), Fail> {
    let params = repeated(rt.alloc(), "q=a", "+a", MAX_PARTS, "")?;
    let at = 2 * MAX_PARTS as u32;
    let which = Which::Parts;
    let want = shown(rt.alloc(), &ReqFault::Limit { at, which })?;
    let found = told(rt.alloc(), params.as_str())?;
    same(&rt, &found.as_str(), &want.as_str(), "a part too many");
    Ok(())
}

fn told(alloc: Global, params: &str) -> Result<Text, Memory> {
    match request(alloc, params.as_bytes()) {
        Ok(request) => tell(alloc, &request),
        Err(ReqFault::BadParam { which }) => {
            Ok(Text::from_string(format!(in alloc; "no {}", which.name())?))
        }
        Err(fault) => shown(alloc, &fault),
    }
}

// The counts, the facets' names with a comma behind each, and the query.
fn tell(alloc: Global, request: &Request) -> Result<Text, Memory> {
    let counts = format!(in alloc;
        "{} {} {};",
        request.hits, request.completions, request.offset
    )?;
    let mut out = Text::from_string(counts);
    for name in request.facets.as_slice() {
        out.push_str(name.as_str())?;
        out.push(',')?;
    }
    out.push(';')?;
    tell_query(&mut out, &request.query)?;
    Ok(out)
}
