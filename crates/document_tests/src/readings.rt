//! Values that are taken from JSON one at a time.

ghost use Rattle.std.specs.Prelude.{⊤};

use json::{Reader, Scratch};
use json_reader::{KeepItems, KeepMembers, Stop, array, boolean, object, pass, text, whole};
use std::test::Fail;

/// How many items there are, or members.
#[derive(Drop)]
struct Count {
    seen: usize,
}

impl<'a> KeepItems<'a> for Count {
    ghost keeps = { λ _ _. ⊤ };

    fn item(&mut self, reader: &mut Reader<'a>, depth: usize) -> Result<(), Stop> {
        pass(reader, depth)?;
        self.seen = self.seen.saturating_add(1);
        Ok(())
    }
}

impl<'a> KeepMembers<'a> for Count {
    ghost keeps = { λ _ _. ⊤ };

    fn member(&mut self, _key: &'a str, reader: &mut Reader<'a>, depth: usize) -> Result<(), Stop> {
        pass(reader, depth)?;
        self.seen = self.seen.saturating_add(1);
        Ok(())
    }
}

/// Whether the text is a value that is passed over, with nothing after it.
fn is_passed(rt: &HostRuntime, json: &str) -> Result<bool, Fail> {
    let mut scratch = Scratch::new(rt.alloc());
    let mut reader = Reader::new(json, &mut scratch)?;
    Ok(pass(&mut reader, 2).is_ok() && reader.next().is_none())
}

#[test]
fn passes(rt: HostRuntime) -> Result<(), Fail> {
    let passed = (
        is_passed(&rt, r#"{"a":[1e308,-0,"\u0041"],"b":null}"#)?,
        is_passed(&rt, "[1e999]")?,
        is_passed(&rt, "[[[]]]")?,
        is_passed(&rt, "[1,]")?,
    );
    assert!(rt; passed == (true, false, false, false));
    Ok(())
}

#[test]
fn scalars(rt: HostRuntime) -> Result<(), Fail> {
    let mut scratch = Scratch::new(rt.alloc());
    let mut reader = Reader::new(r#"["\u0041",true,7,7.0,[8]]"#, &mut scratch)?;
    reader.next();
    let word = matches!(text(&mut reader, 1), Ok(Some("A")));
    let truth = matches!(boolean(&mut reader, 1), Ok(Some(true)));
    let number = matches!(whole(&mut reader, 1), Ok(Some(7)));
    let float = matches!(whole(&mut reader, 1), Ok(None));
    let list = matches!(text(&mut reader, 1), Ok(None));
    assert!(rt; word && truth && number && float && list && reader.take_end_array());
    Ok(())
}

#[test]
fn arrays(rt: HostRuntime) -> Result<(), Fail> {
    let mut scratch = Scratch::new(rt.alloc());
    let mut reader = Reader::new(r#"[1,[2,3],{"a":4}]"#, &mut scratch)?;
    let mut count = Count { seen: 0 };
    let answer = array(&mut reader, 2, &mut count);
    assert!(rt; matches!(answer, Ok(true)) && count.seen == 3);
    Ok(())
}

#[test]
fn objects(rt: HostRuntime) -> Result<(), Fail> {
    let mut scratch = Scratch::new(rt.alloc());
    let mut reader = Reader::new(r#"{"a":1,"a":[2]}"#, &mut scratch)?;
    let mut count = Count { seen: 0 };
    let answer = object(&mut reader, 2, &mut count);
    assert!(rt; matches!(answer, Ok(true)) && count.seen == 2);
    Ok(())
}

#[test]
fn no_array(rt: HostRuntime) -> Result<(), Fail> {
    let mut scratch = Scratch::new(rt.alloc());
    let mut reader = Reader::new("{}", &mut scratch)?;
    let mut count = Count { seen: 0 };
    let answer = array(&mut reader, 2, &mut count);
    assert!(rt; matches!(answer, Ok(false)) && reader.next().is_none());
    Ok(())
}
