use css_tokens::{
    Bracket, CommaSeparated, Cursor, OpenBrackets, Part, Separator, Token, preprocess, tokens,
};
use std::alloc::Global;
use std::test::Fail;
use stylo_base::NoMemory;

fn tokens_of(alloc: Global, text: &str) -> Result<Vec<Token>, NoMemory> {
    let text = preprocess(alloc, text)?;
    tokens(alloc, text.as_str())
}

/// Whether the text is an identifier, whitespace, `.`, a colon, and one token more.
fn takes_all(alloc: Global, text: &str) -> Result<bool, NoMemory> {
    let list = tokens_of(alloc, text)?;
    let mut left = Cursor::new(list.as_slice());
    let named = left.take_ident().is_some();
    left.skip_whitespace();
    let taken = left.take_delim('.') && left.take_colon();
    let last = left.next().is_some();
    Ok(named && taken && last && left.is_at_end())
}

#[test]
fn steps(rt: HostRuntime) -> Result<(), Fail> {
    let all = takes_all(rt.alloc(), "p  .:;")?;
    assert!(rt; all);
    Ok(())
}

/// How many tokens come before the first comma outside brackets, how many are left from there, and
/// whether brackets are open.
fn first_part(alloc: Global, text: &str) -> Result<(usize, usize, bool), NoMemory> {
    let list = tokens_of(alloc, text)?;
    let mut left = Cursor::new(list.as_slice());
    let Part { tokens, brackets } = left.until(alloc, Separator::Comma)?;
    Ok((tokens.len(), left.rest().len(), !brackets.is_empty()))
}

#[test]
fn parts(rt: HostRuntime) -> Result<(), Fail> {
    let seen = first_part(rt.alloc(), "a(,)b,c")?;
    assert_eq!(rt; seen, (4, 2, false));
    Ok(())
}

/// Whether the text is a function, an id and `[`, and how many tokens are in the brackets.
fn in_brackets(alloc: Global, text: &str) -> Result<(bool, usize, usize), NoMemory> {
    let list = tokens_of(alloc, text)?;
    let mut left = Cursor::new(list.as_slice());
    let named = left.take_function().is_some();
    let round = left.inside(alloc, Bracket::Round)?;
    let taken = left.take_id_hash().is_some() && left.take_open_square();
    let mut ahead = left.fork();
    let square = ahead.inside(alloc, Bracket::Square)?;
    Ok((named && taken, round.len(), square.len()))
}

#[test]
fn brackets(rt: HostRuntime) -> Result<(), Fail> {
    let seen = in_brackets(rt.alloc(), "a((b)c)#d[ef")?;
    assert_eq!(rt; seen, (true, 4, 1));
    Ok(())
}

/// How long the first five parts between commas are, as far as there are any.
fn part_lengths(alloc: Global, text: &str) -> Result<String, NoMemory> {
    let list = tokens_of(alloc, text)?;
    let mut parts = CommaSeparated::new(list.as_slice());
    let mut out = String::new(alloc);
    for _place in 0..5 {
        if let Some(part) = parts.next(alloc)? {
            write!(out, "{};", part.len())?;
        }
    }
    Ok(out)
}

#[test]
fn comma_separated(rt: HostRuntime) -> Result<(), Fail> {
    let seen = part_lengths(rt.alloc(), "a(,)b,,c,")?;
    assert_eq!(rt; seen.as_str(), "4;0;1;0;");
    Ok(())
}

/// The tokens with the closers of what they leave open.
fn closed(alloc: Global, text: &str) -> Result<String, NoMemory> {
    let mut list = tokens_of(alloc, text)?;
    let mut brackets = OpenBrackets::new(alloc);
    for token in &list {
        brackets.pass(token)?;
    }
    brackets.append_closers(alloc, &mut list)?;
    let mut out = String::new(alloc);
    for token in &list {
        write!(out, "{:?};", token.kind())?;
    }
    Ok(out)
}

#[test]
fn open_brackets(rt: HostRuntime) -> Result<(), Fail> {
    let text = closed(rt.alloc(), "([)")?;
    assert_eq!(rt;
        text.as_str(),
        "OpenRound;OpenSquare;CloseRound;CloseSquare;CloseRound;"
    );
    Ok(())
}
