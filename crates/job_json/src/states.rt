//! The states of a node.

ghost use Rattle.std.specs.Prelude.{◌≡◌, ◌<◌, length, Some, None, option_map, option_and_then, IfOk, OnOk};
ghost use Rattle.json_reader.specs.Taken.{taken, Says};
ghost use Rattle.stylo_base.specs.StateView.{state_seen};
ghost use Rattle.dom_tree.specs.View.{states_of};
ghost use Rattle.job_json.specs.Checked.{map_ok};
ghost use Rattle.job_json.specs.Words.{state_named, with_state};
ghost use Rattle.job_json.specs.Shape.{states_in};

use crate::checked::{Checked, one_more};
use crate::pointer::in_item;
use dom_tree::States;
use json::Reader;
use json_reader::{KeepItems, Stop, array, pass, text};
use std::alloc::Global;
use stylo_base::{State, Text};

/// What is kept of the words of a list of states.
#[derive(Drop)]
struct StateWords {
    alloc: Global,
    /// The first bad place. What comes after it is passed over.
    bad: Option<Text>,
    /// How many words there are before that place.
    count: usize,
    /// The states that they name.
    states: States,
}

impl<'a> KeepItems<'a> for StateWords {
    ghost use Rattle.job_json.specs.Kept.{AreStatesOf};

    ghost keeps = { AreStatesOf };

    fn item(&mut self, reader: &mut Reader<'a>, depth: usize) -> Result<(), Stop> {
        if self.bad.is_some() {
            pass(reader, depth)?;
            return Ok(());
        }
        match state_named(text(reader, depth)?) {
            Some(state) => {
                self.states = with_state(self.states, state);
                self.count = one_more(self.count)?;
            }
            None => {
                self.bad = Some(in_item(self.alloc, self.count, &Text::new(self.alloc))?);
            }
        }
        Ok(())
    }
}

/// Takes the list of the states of a node.
pub(crate) fn take_states(
    alloc: Global,
    reader: &mut Reader<'_>,
    depth: usize,
) -> Result<Checked<States>, Stop>
    ensures ok { IfOk result (λ s. Says (λ d. states_in (Some d)) (map_ok states_of s)
        (taken depth reader.old) reader.new) }
    ensures shorter { OnOk result (length reader.new < length reader.old) }
    ensures err { result ≡ Err Stop.NotJson → taken depth reader.old ≡ None }
{
    let mut words = StateWords {
        alloc,
        bad: None,
        count: 0,
        states: States::default(),
    };
    if !array(reader, depth, &mut words)? {
        return Ok(Err(Text::new(alloc)));
    }
    let StateWords { bad, states, .. } = words;
    match bad {
        None => Ok(Ok(states)),
        Some(path) => Ok(Err(path)),
    }
}

/// The state that a word names.
pub(crate) fn state_named(word: Option<&str>) -> Option<State>
    ensures { option_map state_seen result
        ≡ option_and_then state_named (option_map (λ t. t.now) word.entry) }
{
    match word? {
        "hover" => Some(State::Hover),
        "active" => Some(State::Active),
        "focus" => Some(State::Focus),
        _ => None,
    }
}

fn with_state(states: States, state: State) -> States
    ensures { states_of result ≡ with_state (states_of states) (state_seen state) }
{
    match state {
        State::Hover => States {
            hover: true,
            ..states
        },
        State::Active => States {
            active: true,
            ..states
        },
        State::Focus => States {
            focus: true,
            ..states
        },
    }
}
