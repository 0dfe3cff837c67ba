use crate::atoms::atom;
use css_tokens::{preprocess, tokens};
use selector_parser::selector_list;
use selector_types::weight::specificity;
use selector_types::{Combinator, Complex, Key, Selector, Simple, Test, key_of};
use std::alloc::Global;
use std::test::Fail;
use stylo_base::NoMemory;

/// The selectors of a text.
fn read(alloc: Global, text: &str) -> Result<Option<Vec<Selector>>, NoMemory> {
    let text = preprocess(alloc, text)?;
    let list = tokens(alloc, text.as_str())?;
    selector_list(alloc, list.as_slice())
}

/// How specific a selector is, and its key.
fn told(alloc: Global, selector: &Selector) -> Result<String, NoMemory> {
    let of = specificity(selector);
    let (sign, name) = match key_of(selector) {
        Key::Id(name) => ("#", name.as_str()),
        Key::Class(class) => (".", class.as_str()),
        Key::Type(tag) => ("", tag.as_str()),
        Key::Any => ("*", ""),
    };
    Ok(format!(in alloc;
        "{} {} {} {sign}{name} ",
        of.ids(),
        of.classes(),
        of.types()
    )?)
}

/// The same of the selectors of a text, or `none`.
fn all_told(alloc: Global, text: &str) -> Result<String, NoMemory> {
    let Some(list) = read(alloc, text)? else {
        return Ok(String::from_str(alloc, "none")?);
    };
    let mut all = String::new(alloc);
    for selector in list.as_slice() {
        all.push_str(told(alloc, selector)?.as_str())?;
    }
    Ok(all)
}

#[test]
fn three(rt: HostRuntime) -> Result<(), Fail> {
    let text = all_told(rt.alloc(), "p.B.a , *,\n.c")?;
    assert_eq!(rt; text.as_str(), "0 2 1 .B 0 0 0 * 0 1 0 .c ");
    Ok(())
}

/// A compound of one test.
fn alone(alloc: Global, test: Test) -> Result<Complex, NoMemory> {
    Ok(Complex::alone(vec![in alloc; test]?))
}

/// `:is(.a)`
fn listed(alloc: Global) -> Result<Test, NoMemory> {
    let class = Simple::Class(atom(alloc, "a")?);
    let member = alone(alloc, Test::Simple(class))?;
    Ok(Test::Is(vec![in alloc; member]?))
}

/// `#n > :is(.a)`
fn nested(alloc: Global) -> Result<Selector, NoMemory> {
    let id = Simple::Id(atom(alloc, "n")?);
    let left = alone(alloc, Test::Simple(id))?;
    let tests = vec![in alloc; listed(alloc)?]?;
    let complex = Complex::combined(alloc, tests, Combinator::Child, left)?;
    Selector::new(alloc, complex)
}

#[test]
fn of_a_list(rt: HostRuntime) -> Result<(), Fail> {
    let text = told(rt.alloc(), &nested(rt.alloc())?)?;
    assert_eq!(rt; text.as_str(), "1 1 0 * ");
    Ok(())
}
