//! What may be handed to another thread, and what may be lent to several.

use dom_tree::Doc;
use element_styler::{Prepared, Styler};
use sheet_set::Sheets;
use std::sync::Arc;
use std::test::Fail;
use style_session::Session;
use style_value::{Style, StyleTable};

/// A value of this type may be handed to another thread.
fn may_be_handed<T: Send>() {}

/// It may also be lent to several threads at a time.
fn may_be_lent<T: Send + Sync>() {}

#[test]
fn what_changes(_rt: HostRuntime) -> Result<(), Fail> {
    may_be_handed::<Styler>();
    may_be_handed::<StyleTable>();
    Ok(())
}

#[test]
fn what_is_lent(_rt: HostRuntime) -> Result<(), Fail> {
    may_be_lent::<Prepared>();
    may_be_lent::<Arc<Style>>();
    may_be_lent::<Doc>();
    Ok(())
}

#[test]
fn sheets_are_lent(_rt: HostRuntime) -> Result<(), Fail> {
    may_be_lent::<Sheets>();
    Ok(())
}

#[test]
fn sessions_are_handed(_rt: HostRuntime) -> Result<(), Fail> {
    may_be_handed::<Session>();
    Ok(())
}
