//! What stands where in an outline.

use og_test_samples::{NESTED, outline_of};
use og_typed::{Index, Outline, Part};
use std::alloc::Global;
use std::process::Abort;
use std::test::Fail;

const SOURCE: &str =
    "var x; {x = 0} cobegin {true} while x < 2 do begin {x < 2} if x = 0 then begin {true} x := 1 {x = 1} end {true} end {x = 2} // {true} skip {true} coend begin {true} x := 0 {true} end {true}";

const FIRST: Part = Part::Process(0);

const SECOND: Part = Part::Process(1);

// An assertion's place, its part, and the place of the assertion to which it leads.
const NOTES: &[(u32, Part, Option<u32>)] = &[
    (23, FIRST, None),
    (51, FIRST, None),
    (79, FIRST, None),
    (93, FIRST, Some(105)),
    (105, FIRST, Some(23)),
    (116, FIRST, None),
    (127, SECOND, None),
    (139, SECOND, None),
    (158, Part::Epilogue, None),
    (172, Part::Epilogue, None),
];

// A statement's place, its part, and the places of the assertions before and after it.
const STATEMENTS: &[(u32, Part, u32, u32)] = &[
    (30, FIRST, 23, 116),
    (59, FIRST, 51, 105),
    (86, FIRST, 79, 93),
    (134, SECOND, 127, 139),
    (165, Part::Epilogue, 158, 172),
];

fn expect_notes<R: Abort>(rt: &R, index: &Index) {
    for (at, part, leads) in NOTES {
        let site = index.note(*at).expect(rt, "an assertion");
        assert!(rt; site.note.at == *at && site.part == *part, "{at}");
        assert!(rt; site.leads.map(|note| note.at) == *leads, "{at}");
    }
}

fn expect_statements<R: Abort>(rt: &R, index: &Index) {
    for (at, part, before, after) in STATEMENTS {
        let site = index.statement(*at).expect(rt, "a statement");
        assert!(rt; site.item.at == *at && site.part == *part, "{at}");
        assert!(rt;
            site.item.before.at == *before && site.after.at == *after,
            "{at}"
        );
    }
}

fn expect_index<R: Abort>(rt: &R, alloc: Global, outline: &Outline) -> Result<(), Fail> {
    let index = Index::new(alloc, outline)?;
    expect_notes(rt, &index);
    expect_statements(rt, &index);
    for at in [0, 7, 24, 183, u32::MAX] {
        assert!(rt;
            index.note(at).is_none() && index.statement(at).is_none(),
            "{at}"
        );
    }
    Ok(())
}

#[test]
fn places(rt: HostRuntime) -> Result<(), Fail> {
    let outline = outline_of(rt.alloc(), SOURCE)?;
    let result = expect_index(&rt, rt.alloc(), &outline);
    drop(outline);
    result
}

// The places of the assertions and of the statements of `NESTED`.
const NESTED_NOTES: &[u32] = &[36, 67, 101, 122, 138, 150, 160, 174];

const NESTED_STATEMENTS: &[u32] = &[44, 77, 113, 167];

fn expect_nested<R: Abort>(rt: &R, alloc: Global, outline: &Outline) -> Result<(), Fail> {
    let index = Index::new(alloc, outline)?;
    for at in NESTED_NOTES {
        assert!(rt; index.note(*at).is_some(), "{at}");
    }
    for at in NESTED_STATEMENTS {
        assert!(rt; index.statement(*at).is_some(), "{at}");
    }
    expect_ends(rt, outline, (10, 28, 187));
    Ok(())
}

// The places of the precondition, of `cobegin` and of the postcondition.
fn expect_ends<R: Abort>(rt: &R, outline: &Outline, places: (u32, u32, u32)) {
    let found = (outline.pre().at, outline.cobegin_at(), outline.post().at);
    assert!(rt; found == places);
}

#[test]
fn nested_places(rt: HostRuntime) -> Result<(), Fail> {
    let outline = outline_of(rt.alloc(), NESTED)?;
    let result = expect_nested(&rt, rt.alloc(), &outline);
    drop(outline);
    result
}

const PARTS: &str =
    "var x, y; aux a = -5, b = 0; {x = 0} begin {true} skip {y = 0} end cobegin {a = 0} skip {true} // {true} skip {false} coend {false}";

fn expect_parts<R: Abort>(rt: &R, outline: &Outline) {
    assert!(rt; outline.names().len() == 4 && outline.vars() == 2);
    assert!(rt; outline.aux_values() == [-5, 0].as_slice());
    assert!(rt; outline.processes().len() == 2 && outline.epilogue().is_none());
    let prologue = outline.prologue().expect(rt, "a prologue");
    assert!(rt; prologue.first().at == 43 && prologue.last().at == 55);
}

#[test]
fn parts_of_an_outline(rt: HostRuntime) -> Result<(), Fail> {
    let outline = outline_of(rt.alloc(), PARTS)?;
    expect_parts(&rt, &outline);
    expect_ends(&rt, &outline, (29, 67, 124));
    drop(outline);
    Ok(())
}
