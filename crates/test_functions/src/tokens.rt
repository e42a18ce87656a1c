//! The tokens of texts, and texts whose marks were doubled.

use crate::page::Page;
use fx_grammar::{Marks, undouble};
use fx_lexer::{LexEnd, Token, tokens};

/// The texts whose tokens are written.
const SOURCES: [&str; 19] = [
    "",
    "And Or Not in exactin As true false",
    "( ) { } [ ] [@ , ; : . + - * / ^ % & && || ! = <> < <= > >=",
    "\"a\"\"b\"",
    "\"\" \"a\"'b'",
    "$\"a{x}b{{\"",
    "$\"{ {a: 1}.a }\"",
    "$\"{$\"{{a}}{b}\"}\"\"c\"d",
    "{a}$\"\"",
    "$\"a",
    "$\"{x",
    "1.5.2 1. .5 1a",
    "922337203685477.58074",
    "// x\n1 /* y **/ // z",
    "1//a\r2\r\n3/***/",
    "1/2/* // */3",
    "a<=b<>c[@d]&&e",
    "'it''s' ''''",
    "And andy And1 exactin in",
];

pub fn write(page: &mut Page) {
    page.add("# Tokens: the byte where each begins, what it is, and its text");
    for source in SOURCES {
        add_tokens(page, source);
    }
    page.add("# Texts whose marks were doubled");
    add_undoubled(page, Marks::Quote, &['a', '"', '"']);
    add_undoubled(page, Marks::Weave, &['a', '}']);
}

fn add_tokens(page: &mut Page, source: &str) {
    if source.len() >= 4_294_967_296 {
        return page.add("too long");
    }
    match tokens(page.alloc, source) {
        Ok(found) => list_tokens(page, source, &found),
        Err(LexEnd::Bad(_)) => page.add("no tokens"),
        Err(LexEnd::Memory) => page.miss(),
    }
}

fn list_tokens(page: &mut Page, source: &str, found: &[Token]) {
    page.put_made(format!(in page.alloc; "{source:?}"));
    for token in found {
        let slice = source.get(token.at as usize..token.upto as usize);
        let text = slice.unwrap_or("no text");
        page.put_made(format!(in page.alloc; " | {} {:?} {text}", token.at, token.kind));
    }
    page.add("");
}

fn add_undoubled(page: &mut Page, marks: Marks, doubled: &[char]) {
    match undouble(page.alloc, marks, doubled) {
        Ok(Some(found)) => add_characters(page, &found),
        Ok(None) => page.add("a mark stands alone"),
        Err(_) => page.miss(),
    }
}

fn add_characters(page: &mut Page, characters: &[char]) {
    for character in characters {
        page.put_made(format!(in page.alloc; "{character}"));
    }
    page.add("");
}
