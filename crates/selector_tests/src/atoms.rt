use std::alloc::Global;
use std::test::Fail;
use stylo_base::{Atom, Names, NoMemory, Text};

/// The atom of a text.
pub(crate) fn atom(alloc: Global, text: &str) -> Result<Atom, NoMemory> {
    Ok(Atom::of_text(Text::of_str(alloc, text)?))
}

// `Aa` and `BB` have one key: 65 * 31 + 97 and 66 * 31 + 66.

#[test]
fn one_key_of_two_texts(rt: HostRuntime) -> Result<(), Fail> {
    let first = atom(rt.alloc(), "Aa")?;
    let second = atom(rt.alloc(), "BB")?;
    assert_eq!(rt; (first.key(), second.key()), (2112, 2112));
    Ok(())
}

#[test]
fn a_name_of_the_same_key(rt: HostRuntime) -> Result<(), Fail> {
    let mut names = Names::new(rt.alloc());
    let name = names.intern("BB")?;
    let first = names.is_atom(name, &atom(rt.alloc(), "Aa")?);
    let second = names.is_atom(name, &atom(rt.alloc(), "BB")?);
    assert_eq!(rt; (names.key(name), first, second), (2112, false, true));
    Ok(())
}

#[test]
fn copied_names(rt: HostRuntime) -> Result<(), Fail> {
    let mut names = Names::new(rt.alloc());
    let name = names.intern("div")?;
    let copied = names.copy(rt.alloc())?;
    assert_eq!(rt; (copied.len(), copied.find("div")), (1, Some(name)));
    Ok(())
}

#[test]
fn copied_atom(rt: HostRuntime) -> Result<(), Fail> {
    let copied = atom(rt.alloc(), "Aa")?.copy(rt.alloc())?;
    assert_eq!(rt;
        (copied.as_str(), copied.text().as_str(), copied.key()),
        ("Aa", "Aa", 2112)
    );
    Ok(())
}
