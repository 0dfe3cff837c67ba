//! Tests of one element by itself, its attributes, its states or its index among its siblings.

use stylo_base::{Atom, State, Text};

/// How an attribute's value is compared: `=`, `~=`, `|=`, `^=`, `$=`, `*=`.
#[derive(Clone, Copy, Debug, PartialEq, Eq)]
pub enum AttributeOperator {
    Equals,
    Includes,
    DashMatch,
    Prefix,
    Suffix,
    Substring,
}

/// The indexes `a * n + b`, for n from 0.
#[derive(Clone, Copy, Debug, PartialEq, Eq)]
pub struct AnB {
    pub a: i32,
    pub b: i32,
}

/// The indexes from the first or from the last, among all siblings or among those of the same type.
#[derive(Clone, Copy, Debug, PartialEq, Eq)]
pub struct Nth {
    pub formula: AnB,
    pub from_last: bool,
    pub of_type: bool,
}

/// The attribute `name` compares with `value`, ignoring ASCII case unless `case_counts`.
#[derive(Debug, Drop)]
pub struct AttributeTest {
    pub name: Atom,
    pub operator: AttributeOperator,
    pub value: Text,
    pub case_counts: bool,
}

/// A test of one element by itself, its attributes, its states or its index among its siblings.
#[derive(Debug, Drop)]
pub enum Simple {
    /// Its type has this name.
    Type(Atom),
    /// Its id is this.
    Id(Atom),
    /// This is one of its classes.
    Class(Atom),
    /// It has an attribute of this name.
    Attribute(Atom),
    /// One of its attributes compares with a value.
    AttributeCompares(Box<AttributeTest>),
    /// It is the root.
    Root,
    /// It has no child.
    Empty,
    /// Its index among its siblings is one of these.
    Nth(Nth),
    /// It is the only one of its siblings, or with `of_type` the only one of its type.
    Only { of_type: bool },
    /// It is in this state.
    State(State),
}
