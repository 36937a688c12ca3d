// Earlier texts, read and printed.
use cgm_evolve::{Earlier, print_earlier, read_earlier};
use std::alloc::Global;
use std::test::Fail;

/// The canonical text of the realization that a text tells.
fn printed(alloc: Global, text: &[u8]) -> Result<Vec<u8>, Fail> {
    if text.len() > 16_777_216 {
        return Err(Fail::new("the text is too long"));
    }
    let earlier = read_earlier(alloc, text)?;
    Ok(print_earlier(alloc, &earlier)?)
}

/// Whether this is the canonical text of the realization that a text tells.
fn is_printed(alloc: Global, text: &str, wanted: &str) -> Result<bool, Fail> {
    Ok(printed(alloc, text.as_bytes())?.as_slice() == wanted.as_bytes())
}

/// Texts, and their canonical forms.
const CASES: &[(&str, &str)] = &[
    ("earlier 1\n", "earlier 1\n"),
    (
        "earlier 1\nT1 true\nT2 false\n",
        "earlier 1\nT1 true\nT2 false\n",
    ),
    (
        "earlier 1\nand false\nmust true\nearlier true\ntrue false\n",
        "earlier 1\nand false\nmust true\nearlier true\ntrue false\n",
    ),
    (
        "earlier 1\nz true\n_ false\na-.9 true\n",
        "earlier 1\nz true\n_ false\na-.9 true\n",
    ),
    ("earlier 1", "earlier 1\n"),
    ("# old\r\n\nearlier 001 # then\n\n", "earlier 1\n"),
    (
        "\tearlier  1\r\n T1\ttrue# was\r\n\r\nT2  false",
        "earlier 1\nT1 true\nT2 false\n",
    ),
];

#[test]
fn earlier_texts(rt: HostRuntime) -> Result<(), Fail> {
    for (text, wanted) in CASES {
        assert!(rt; is_printed(rt.alloc(), text, wanted)?, "at {text}");
    }
    Ok(())
}

#[test]
fn nothing_known(rt: HostRuntime) -> Result<(), Fail> {
    let unknown = Earlier::unknown(rt.alloc());
    let text = print_earlier(rt.alloc(), &unknown)?;
    assert!(rt; text.as_slice() == b"earlier 1\n".as_slice());
    Ok(())
}
