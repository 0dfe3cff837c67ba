//! The printed lines.

use property_table::{Keyword, PropId, Value};
use report_text::{Sums, batch_line, element_line, element_line_len, refused_line, summary_line};
use std::alloc::Global;
use std::test::Fail;
use style_value::{Style, StyleDraft};
use stylo_base::{EditRefused, Fixed, Kind, NoMemory};

#[test]
fn batch(rt: HostRuntime) -> Result<(), Fail> {
    let line = batch_line(rt.alloc(), 10000, 20, 3, 4, u64::MAX)?;
    assert_eq!(rt;
        line.as_str(),
        "batch 10000: 20 accepted, 3 refused, 4 matched, 18446744073709551615 cascaded\n"
    );
    Ok(())
}

#[test]
fn refused(rt: HostRuntime) -> Result<(), Fail> {
    let why = EditRefused::Limit(Kind::Value, 1_048_576);
    let line = refused_line(rt.alloc(), 12, &why)?;
    assert_eq!(rt; line.as_str(), "refused 12: limit value 1048576\n");
    Ok(())
}

#[test]
fn summary(rt: HostRuntime) -> Result<(), Fail> {
    let sums = Sums {
        accepted: 7,
        refused: 1,
        matched: 10,
        cascaded: 12,
        lines: 20,
        bytes: u64::MAX,
    };
    let line = summary_line(rt.alloc(), 5, 2, &sums)?;
    assert_eq!(rt;
        line.as_str(),
        "nodes 5, batches 2, accepted 7, refused 1, matched 10, cascaded 12, lines 20, bytes 18446744073709551615\n"
    );
    Ok(())
}

/// a style that has no box, and a negative margin
fn boxless(alloc: Global) -> Result<Style, NoMemory> {
    let mut draft = StyleDraft::inheriting(alloc, &Style::initial(alloc)?)?;
    draft.set(PropId::MarginTop, Value::Pixels(Fixed::clamp(-1_500)));
    draft.set(PropId::Display, Value::Keyword(Keyword::None));
    draft.adjust(false);
    draft.finish(alloc)
}

#[test]
fn element(rt: HostRuntime) -> Result<(), Fail> {
    let style = boxless(rt.alloc())?;
    let line = element_line(rt.alloc(), u32::MAX, "é→😀", &style)?;
    assert_eq!(rt;
        line.as_str(),
        "4294967295 é→😀{display: none; margin-top: -1.5px}\n"
    );
    assert_eq!(rt; element_line_len(u32::MAX, "é→😀", &style), 56);
    Ok(())
}
