use css_tokens::{preprocess, tokens};
use css_writer::write;
use std::alloc::Global;
use std::test::Fail;
use stylo_base::{NoMemory, Text};

/// The text of the tokens of a text.
fn written(alloc: Global, text: &str) -> Result<Text, NoMemory> {
    let text = preprocess(alloc, text)?;
    let list = tokens(alloc, text.as_str())?;
    write(alloc, list.as_slice())
}

#[test]
fn gaps(rt: HostRuntime) -> Result<(), Fail> {
    let text = written(rt.alloc(), "1px/2px")?;
    assert_eq!(rt; text.as_str(), "1px/**///**/2px");
    Ok(())
}
