//! Texts, what they are read as, and what is printed of that.
use crate::{TextCode, print_tree, read_tree};
use dg_base::Refusal;
use std::alloc::{AllocError, Global};
use std::test::Fail;

// Texts, and what reading them answers.
const READINGS: [(&str, &str); 15] = [
    ("", "Ok(Items { items: [] })"),
    ("# only a comment", "Ok(Items { items: [] })"),
    (
        "a: b-1;\r\nb {c:\"x\"'y'},",
        "Ok(Items { items: [Field { name: Str { text: \"a\" }, line: 1, value: Bare(Str { text: \"b-1\" }) }, Field { name: Str { text: \"b\" }, line: 2, value: Message(Items { items: [Field { name: Str { text: \"c\" }, line: 2, value: Quoted(Str { text: \"xy\" }) }] }) }] })",
    ),
    (
        "s: '\\303\\251\\x41'\n\"\\n\" t:{}",
        "Ok(Items { items: [Field { name: Str { text: \"s\" }, line: 1, value: Quoted(Str { text: \"éA\\n\" }) }, Field { name: Str { text: \"t\" }, line: 2, value: Message(Items { items: [] }) }] })",
    ),
    ("a: \"\\400\"", "Err(Because(Token { line: 1 }))"),
    ("\na: 'x\"", "Err(Because(Token { line: 2 }))"),
    ("a: \"\n\"", "Err(Because(Token { line: 1 }))"),
    ("a: \"\\303\" \"\\251\"", "Err(Because(Token { line: 1 }))"),
    ("a: 1;;", "Err(Because(Token { line: 1 }))"),
    ("a: 1 # b\nc", "Err(Because(Token { line: 2 }))"),
    ("a.b: 1", "Err(Because(Token { line: 1 }))"),
    ("a {\nb {\n}", "Err(Because(Unclosed { line: 1 }))"),
    ("a {\nb: \"x", "Err(Because(Token { line: 2 }))"),
    ("}", "Err(Because(Token { line: 1 }))"),
    ("é: 1", "Err(Because(Token { line: 1 }))"),
];

fn reading(alloc: Global, bytes: &[u8]) -> Result<String, AllocError> {
    let answer = read_tree(alloc, bytes);
    format!(in alloc; "{answer:?}")
}

#[test]
fn reads_texts(rt: HostRuntime) -> Result<(), Fail> {
    for (text, answer) in READINGS {
        let given = reading(rt.alloc(), text.as_bytes())?;
        assert_eq!(rt; given.as_str(), answer, "of {text}");
    }
    Ok(())
}

// So many braces, each of a field on a line of its own.
fn braces(alloc: Global, count: u32) -> Result<Vec<u8>, AllocError> {
    let mut text = Vec::new(alloc);
    for _ in 0..count {
        text.extend_from_slice(b"a{\n")?;
    }
    Ok(text)
}

fn refusal(alloc: Global, bytes: &[u8]) -> Option<Refusal<TextCode>> {
    read_tree(alloc, bytes).err()
}

#[test]
fn bounds_nesting(rt: HostRuntime) -> Result<(), Fail> {
    let alloc = rt.alloc();
    for (count, refused) in [
        (64, TextCode::Unclosed { line: 64 }),
        (1_048_576, TextCode::Nesting { line: 65 }),
    ] {
        let text = braces(alloc, count)?;
        assert_eq!(rt; refusal(alloc, &text), Some(Refusal::Because(refused)));
    }
    assert_eq!(rt;
        refusal(alloc, &[97, 255]),
        Some(Refusal::Because(TextCode::Utf8))
    );
    Ok(())
}

// What is printed of the tree that a text is read as.
fn printed(alloc: Global, text: &str) -> Result<String, Fail> {
    let Ok(tree) = read_tree(alloc, text.as_bytes()) else {
        return Ok(String::new(alloc));
    };
    let bytes = print_tree(alloc, &tree)?;
    Ok(String::from_utf8_lossy(alloc, bytes.as_slice())?)
}

#[test]
fn prints_trees(rt: HostRuntime) -> Result<(), Fail> {
    let text = printed(
        rt.alloc(),
        "a: b c: 'q\"\\\\\\n\\x7f\\001' m { n { } x: 1 }",
    )?;
    assert_eq!(rt;
        text.as_str(),
        "a: b\nc: \"q\\\"\\\\\\n\\177\\001\"\nm {\n  n {\n  }\n  x: 1\n}\n"
    );
    Ok(())
}
