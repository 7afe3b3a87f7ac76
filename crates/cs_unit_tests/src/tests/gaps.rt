//! Codes on worked numbers, and what stands where no code does.
use crate::tests::rows::same;
use cs_gaps::{Gap, next_gap, put_gap};
use std::test::Fail;

const NUMBERS: &[u32] = &[0, 127, 128, 1_048_575, 4_294_967_295];

const CODES: &[u8] = &[
    0, 0x7F, 0x80, 1, 0xFF, 0xFF, 0x3F, 0xFF, 0xFF, 0xFF, 0xFF, 0x0F,
];

// Bytes, a place, and what stands there.
const GAPS: &[(&[u8], usize, Gap)] = &[
    (CODES, 0, Gap::Is { n: 0, next: 1 }),
    (CODES, 1, Gap::Is { n: 127, next: 2 }),
    (CODES, 2, Gap::Is { n: 128, next: 4 }),
    (
        CODES,
        4,
        Gap::Is {
            n: 1_048_575,
            next: 7,
        },
    ),
    (
        CODES,
        7,
        Gap::Is {
            n: 4_294_967_295,
            next: 12,
        },
    ),
    (&[], 0, Gap::Cut),
    (&[0x80], 0, Gap::Cut),
    (&[0x80, 0], 0, Gap::Long),
    (&[0xFF, 0xFF, 0xFF, 0xFF, 0x10], 0, Gap::Big),
    (&[0x80, 0x80, 0x80, 0x80, 0x80, 0], 0, Gap::Big),
];

#[test]
fn numbers_are_put(rt: HostRuntime) -> Result<(), Fail> {
    let mut out = Vec::new(rt.alloc());
    for n in NUMBERS {
        put_gap(&mut out, *n)?;
    }
    same(&rt, &out.as_slice(), &CODES, "the codes");
    Ok(())
}

#[test]
fn gaps_are_found_where_a_code_stands(rt: HostRuntime) {
    for (bytes, at, want) in GAPS {
        same(&rt, &gap_at(bytes, *at), &Some(*want), *bytes);
    }
}

// What stands at a place that isn't past the end.
fn gap_at(bytes: &[u8], at: usize) -> Option<Gap> {
    if at <= bytes.len() {
        Some(next_gap(bytes, at))
    } else {
        None
    }
}
