// Small calls: codes of statuses, lists, names, tokens and the order of vectors.
use cgm_base::{OutOfMemory, Status};
use cgm_lex::tokens;
use cgm_model::{Name, Parts};
use cgm_obj::less;
use std::alloc::Global;
use std::test::Fail;

const CODES: &[(Status, u8)] = &[
    (Status::Done, 0),
    (Status::Unrealizable, 1),
    (Status::Usage, 2),
    (Status::Text, 3),
    (Status::Earlier, 4),
    (Status::Limit, 5),
    (Status::Certificate, 6),
    (Status::Open, 7),
    (Status::Read, 8),
    (Status::Write, 9),
    (Status::Memory, 10),
];

#[test]
fn codes(rt: HostRuntime) {
    for (status, code) in CODES {
        assert!(rt; status.code() == *code, "at {code}");
    }
}

/// Whether a list grows, and gives back what it has.
fn grows(alloc: Global) -> Result<bool, OutOfMemory> {
    let mut parts = Parts::of(vec![in alloc; 3, 5]?);
    parts.push(7)?;
    let is_seen = parts.as_slice() == [3, 5, 7].as_slice();
    Ok(is_seen && parts.into_inner().as_slice() == [3, 5, 7].as_slice())
}

/// Whether a name grows, and gives back what it has.
fn grows_in_name(alloc: Global) -> Result<bool, OutOfMemory> {
    let mut name = Name::of(String::from_str(alloc, "R")?);
    name.push('1')?;
    let is_seen = name.as_slice() == b"R1".as_slice();
    Ok(is_seen && name.into_inner().as_str() == "R1")
}

#[test]
fn lists_and_names(rt: HostRuntime) -> Result<(), Fail> {
    assert!(rt; grows(rt.alloc())?);
    assert!(rt; grows_in_name(rt.alloc())?);
    Ok(())
}

#[test]
fn tokens_of_a_text(rt: HostRuntime) -> Result<(), Fail> {
    let lexed = tokens(rt.alloc(), b"goal G must # why\n\ntask T\n")?;
    assert!(rt; lexed.tokens.len() == 5 && lexed.fault.is_none());
    Ok(())
}

/// Vectors, and whether the first is less.
const VECTORS: &[([i64; 2], [i64; 2], bool)] = &[
    ([1, 9], [2, 0], true),
    ([2, 0], [1, 9], false),
    ([1, -3], [1, -2], true),
    ([1, -2], [1, -3], false),
    ([1, 1], [1, 1], false),
];

#[test]
fn order_of_vectors(rt: HostRuntime) {
    for (first, second, answer) in VECTORS {
        assert!(rt;
            less(first, second) == *answer,
            "at {first:?} and {second:?}"
        );
    }
}
