use css_tokens::{Token, TokenKind, TokenList, TokenReader, name_of, preprocess, tokens, value_of};
use std::alloc::Global;
use std::test::Fail;
use stylo_base::NoMemory;

#[test]
fn line_ends(rt: HostRuntime) -> Result<(), Fail> {
    let text = preprocess(rt.alloc(), "a\r\nb\r\0")?;
    assert_eq!(rt; text.as_str(), "a\nb\n\u{fffd}");
    Ok(())
}

/// The kind and name of each token of a text.
fn kinds(alloc: Global, text: &str) -> Result<String, NoMemory> {
    let text = preprocess(alloc, text)?;
    let mut out = String::new(alloc);
    for token in &tokens(alloc, text.as_str())? {
        write!(out, "{:?} {};", token.kind(), name_of(token).as_str())?;
    }
    Ok(out)
}

#[test]
fn kinds_and_names(rt: HostRuntime) -> Result<(), Fail> {
    let text = kinds(rt.alloc(), "p #b1\n\u{e9}.")?;
    assert_eq!(rt;
        text.as_str(),
        "Ident p;Whitespace ;Hash { is_id: true } b1;Whitespace ;Ident \u{e9};Delim('.') ;"
    );
    Ok(())
}

/// Whether a copy of each token of a text says the same.
fn copies_are_same(alloc: Global, text: &str) -> Result<bool, NoMemory> {
    let list = TokenList::of_vec(tokens_of(alloc, text)?);
    let mut same = true;
    for token in list.as_slice() {
        let copy = token.copy(alloc)?;
        same = same && copy.kind() == token.kind() && copy.span() == token.span();
        same = same && name_of(&copy).is_same(name_of(token)) && value_of(&copy).is_none();
    }
    Ok(same)
}

fn tokens_of(alloc: Global, text: &str) -> Result<Vec<Token>, NoMemory> {
    let text = preprocess(alloc, text)?;
    tokens(alloc, text.as_str())
}

#[test]
fn copies(rt: HostRuntime) -> Result<(), Fail> {
    let same = copies_are_same(rt.alloc(), "p.a #b1")?;
    assert!(rt; same);
    Ok(())
}

/// Whether a reader passes `:`, reads `b` and is at its end then.
fn reads_after_a_colon(alloc: Global) -> Result<bool, NoMemory> {
    let text = preprocess(alloc, ":/**/b")?;
    let mut reader = TokenReader::new(alloc, text.as_str())?;
    let is_colon = reader.pass() == Some(TokenKind::Colon);
    let Some(token) = reader.next(alloc)? else {
        return Ok(false);
    };
    let is_b = name_of(&token).as_str() == "b";
    Ok(is_colon && is_b && reader.pass().is_none())
}

#[test]
fn tokens_one_by_one(rt: HostRuntime) -> Result<(), Fail> {
    let reads = reads_after_a_colon(rt.alloc())?;
    assert!(rt; reads);
    Ok(())
}
