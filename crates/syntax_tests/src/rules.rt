use css_rules::{
    Rule, RuleKind, RuleReader, SheetEdition, declaration_list, edition_rules, sheet_rules,
};
use css_tokens::{Token, name_of, preprocess, tokens};
use std::alloc::Global;
use std::test::Fail;
use stylo_base::NoMemory;

/// The names of identifiers, and of any other token its kind.
fn push_shown(out: &mut String, list: &[Token]) -> Result<(), NoMemory> {
    for token in list {
        if token.is_ident() {
            write!(out, "{};", name_of(token).as_str())?;
        } else {
            write!(out, "{:?};", token.kind())?;
        }
    }
    Ok(())
}

/// The rules, each after how many parts the name of its layer has, and the layers that are declared by as many.
fn shown(alloc: Global, rules: &[Rule]) -> Result<String, NoMemory> {
    let mut out = String::new(alloc);
    for rule in rules {
        match rule {
            Rule::Style(style) => {
                write!(out, "{} ", style.context.layer.len())?;
                push_shown(&mut out, style.prelude.as_slice())?;
                out.push_str("< ")?;
                push_shown(&mut out, style.block.as_slice())?;
                out.push_str("> ")?;
            }
            Rule::Layer(context) => write!(out, "@{} ", context.layer.len())?,
        }
    }
    Ok(out)
}

#[test]
fn two_rules(rt: HostRuntime) -> Result<(), Fail> {
    let rules = sheet_rules(rt.alloc(), " p{a:b} q{(c")?;
    let text = shown(rt.alloc(), rules.as_slice())?;
    assert_eq!(rt;
        text.as_str(),
        "0 p;< a;Colon;b;> 0 q;< OpenRound;c;CloseRound;> "
    );
    Ok(())
}

#[test]
fn two_layers(rt: HostRuntime) -> Result<(), Fail> {
    let edition = SheetEdition {
        sheet: 1,
        edition: 0,
    };
    let rules = edition_rules(rt.alloc(), edition, "@layer a.b,c;@layer c{p{}}q{}")?;
    let text = shown(rt.alloc(), rules.as_slice())?;
    assert_eq!(rt; text.as_str(), "@2 @1 @1 1 p;< > 0 q;< > ");
    Ok(())
}

/// What a reader says of a text with three rules and layers.
fn one_by_one(alloc: Global, text: &str) -> Result<String, NoMemory> {
    let edition = SheetEdition {
        sheet: 1,
        edition: 0,
    };
    let mut reader = RuleReader::new(alloc, edition, text)?;
    let mut out = String::new(alloc);
    for _ in 0..4 {
        match reader.next(alloc)? {
            Some(RuleKind::Style) => {
                push_shown(&mut out, reader.prelude())?;
                out.push_str("< ")?;
                push_shown(&mut out, reader.block())?;
                out.push_str("> ")?;
            }
            Some(RuleKind::Layer) => write!(out, "@{} ", reader.context().layer.len())?,
            None => out.push_str("end")?,
        }
    }
    Ok(out)
}

#[test]
fn rules_one_by_one(rt: HostRuntime) -> Result<(), Fail> {
    let text = one_by_one(rt.alloc(), "p{a}@media{q{}}@layer a.b;q{(c")?;
    assert_eq!(rt;
        text.as_str(),
        "p;< a;> @2 q;< OpenRound;c;CloseRound;> end"
    );
    Ok(())
}

fn declarations(alloc: Global, block: &str) -> Result<String, NoMemory> {
    let block = preprocess(alloc, block)?;
    let block = tokens(alloc, block.as_str())?;
    let mut out = String::new(alloc);
    for declaration in &declaration_list(alloc, block.as_slice())? {
        write!(
            out,
            "{} {}: ",
            declaration.name.as_str(),
            declaration.important
        )?;
        push_shown(&mut out, declaration.value.as_slice())?;
    }
    Ok(out)
}

#[test]
fn two_declarations(rt: HostRuntime) -> Result<(), Fail> {
    let text = declarations(rt.alloc(), "a : b! Important ;1;c:(;")?;
    assert_eq!(rt;
        text.as_str(),
        "a true: b;c false: OpenRound;Semicolon;CloseRound;"
    );
    Ok(())
}
