//! Sessions.
ghost use Rattle.std.specs.Prelude.{◌≡◌, ◌<◌, ◌≤◌, ◌^◌, IfOk, OnOk, OnErr, length, []};
ghost use Rattle.std.specs.Prelude.{slice_index_or, slice_set, nat_le, ◌++◌, ◌∷◌, Some, None, not, if◌then◌else◌};

use crate::caller::Caller;
use crate::carrying::{carry_collections, carry_variables};
use crate::carrying_over::{carry_inputs, carry_kept, screen_over};
use crate::change::Change;
use crate::lists::{blanks, copy_of_inputs, copy_of_texts, copy_of_values, empty_tables, nothing};
use crate::turn::Turn;
use crate::weight::{put, total_weight};
use fx_base::Memory;
use fx_core::sources::Source;
use fx_core::{ControlList, Names};
use fx_types::values::{Rows, Value};
use fx_types::words::Words;
use std::alloc::Global;
use std::marker::Model;
use std::mem;

/// The most notices of one request.
const MOST_NOTICES: usize = 10;

/// What is kept of one session. Numbers are places in the lists of the app's names, from 0.
pub struct Session {
    // Kept, so that `copy` and `get` take none.
    alloc: Global,
    screen: u32,
    // Whether a screen was made the current one since this was asked last.
    navigated: bool,
    variables: Vec<Value>,
    collections: Vec<Value>,
    // What the variables and collections weigh. Kept, so that a change weighs two values alone.
    // In 128 bits, which no sum of weights fills.
    weight: u128,
    inputs: Vec<Option<Value>>,
    chosen: Vec<Option<(u32, Option<u32>)>>,
    caller: Caller,
    notices: Vec<Words>,
    // Empty, with room for what the app has that is to come.
    spare_variables: Vec<Value>,
    spare_collections: Vec<Value>,
    spare_inputs: Vec<Option<Value>>,
    spare_chosen: Vec<Option<(u32, Option<u32>)>>,
}

// By hand, so that it is called: what is derived is opened wherever a value may end, which costs
// proofs seconds each time.
impl Drop for Session {
    fn drop(self) {
        let Session {
            alloc: _,
            screen: _,
            navigated: _,
            variables: _,
            collections: _,
            weight: _,
            inputs: _,
            chosen: _,
            caller: _,
            notices: _,
            spare_variables: _,
            spare_collections: _,
            spare_inputs: _,
            spare_chosen: _,
        } = self;
    }
}

impl Model for Session {
    ghost use Rattle.std.specs.Prelude.{◌≡◌, [], map, option_map, vec_capacity};
    ghost use Rattle.std.specs.Coded.{codes};
    ghost use Rattle.fx_types.specs.ValueCode.{data_code};
    ghost use Rattle.fx_types.specs.ValueView.{view as value_view};
    ghost use Rattle.session_state.specs.Sessions.{SessionState, weight_of_values};

    ghost Value = { SessionState };

    ghost coded = { Prim.hlevel (codes, data_code) };

    ghost view = { λ s. record {
      screen = s.screen;
      navigated = s.navigated;
      variables = map value_view s.variables.items;
      collections = map value_view s.collections.items;
      inputs = map (option_map value_view) s.inputs.items;
      chosen = s.chosen.items;
      kept = s.caller;
      notices = s.notices.items;
      room = record {
        variables = vec_capacity s.spare_variables;
        collections = vec_capacity s.spare_collections;
        controls = vec_capacity s.spare_inputs;
      };
    } };

    ghost invariant = { λ s.
        (s.weight ≡ weight_of_values (map value_view s.variables.items)
        (map value_view s.collections.items))
        × (s.spare_variables.items ≡ []) × (s.spare_collections.items ≡ [])
        × (s.spare_inputs.items ≡ []) × (s.spare_chosen.items ≡ [])
        × (vec_capacity s.spare_chosen ≡ vec_capacity s.spare_inputs) };
}

impl Session {
    ghost use Rattle.std.specs.Prelude.{true, false};
    ghost use Rattle.std.specs.List.{All};
    ghost use Rattle.fx_types.specs.Types.{Shape};
    ghost use Rattle.fx_types.specs.TypeView.{shape};
    ghost use Rattle.fx_types.specs.Values.{tab, no_rows};
    ghost use Rattle.fx_types.specs.ValueView.{view};
    ghost use Rattle.fx_value.specs.Fits.{fits_in};
    ghost use Rattle.fx_core.specs.declared.names.Names.{Names as AppNames};
    ghost use Rattle.fx_core.specs.SourceTypes.{sources};
    ghost use Rattle.session_state.specs.Once.{turn_of};
    ghost use Rattle.session_state.specs.CarriedOver.{carried_over, with_controls};
    ghost use Rattle.session_state.specs.Carrying.{carried};
    ghost use Rattle.session_state.specs.Sessions.{HasSessionRoom, opened, stored_value, Holds};
    ghost use Rattle.session_state.specs.Sessions.{no_session_room, room_with, weight as weight_of};
    ghost use Rattle.session_state.specs.Sessions.{may_weigh};
    ghost use Rattle.session_state.specs.Changes.{made, is_change_refused, IsNotice, IsThere};
    ghost use Rattle.session_state.specs.Changes.{FitsNames, FitsChange, HoldsTables};

    /// A session of an app: on its first screen, with blank variables, empty collections, and
    /// nothing given, chosen or accepted yet.
    pub fn new(alloc: Global, names: &Names) -> Result<Session, Memory>
        ensures opened { IfOk result (λ s. s ≡ opened names.now) }
        ensures fits { 0 < length names.now.screens → HoldsTables names.now
            → FitsNames names.now (opened names.now) }
    {
        let count = names
            .variables
            .len()
            .checked_add(names.collections.len())
            .ok_or(Memory)?;
        // A blank value and an empty table weigh 16 each.
        let weight = count.checked_mul(16).ok_or(Memory)? as u128;
        Ok(Session {
            alloc,
            screen: 0,
            navigated: false,
            variables: blanks(alloc, names.variables.len())?,
            collections: empty_tables(alloc, names.collections.len())?,
            weight,
            inputs: nothing(alloc, names.controls.len())?,
            chosen: nothing(alloc, names.controls.len())?,
            caller: Caller::new(alloc),
            notices: Vec::new(alloc),
            spare_variables: Vec::new(alloc),
            spare_collections: Vec::new(alloc),
            spare_inputs: Vec::new(alloc),
            spare_chosen: Vec::new(alloc),
        })
    }

    /// The same session, with as much room beside it.
    pub fn copy(&self) -> Result<Session, Memory>
        ensures { IfOk result (λ s. s ≡ self.now) }
    {
        let alloc = self.alloc;
        // Filled part by part, so that one session, and not each part by itself, ends where memory
        // runs out.
        let mut copy = Session {
            alloc,
            screen: self.screen,
            navigated: self.navigated,
            variables: copy_of_values(alloc, &self.variables)?,
            collections: copy_of_values(alloc, &self.collections)?,
            weight: self.weight,
            inputs: Vec::new(alloc),
            chosen: Vec::new(alloc),
            caller: Caller::new(alloc),
            notices: Vec::new(alloc),
            spare_variables: Vec::new(alloc),
            spare_collections: Vec::new(alloc),
            spare_inputs: Vec::new(alloc),
            spare_chosen: Vec::new(alloc),
        };
        copy.inputs = copy_of_inputs(alloc, &self.inputs)?;
        copy.chosen = Vec::from_slice(alloc, &self.chosen)?;
        copy.caller = self.caller.copy(alloc)?;
        copy.notices = copy_of_texts(alloc, &self.notices)?;
        copy.spare_variables = Vec::with_capacity(alloc, self.spare_variables.capacity())?;
        copy.spare_collections = Vec::with_capacity(alloc, self.spare_collections.capacity())?;
        let inputs = Vec::with_capacity(alloc, self.spare_inputs.capacity())?;
        copy.spare_chosen = Vec::with_capacity(alloc, self.spare_chosen.capacity())?;
        copy.spare_inputs = inputs;
        Ok(copy)
    }

    /// Makes room for the variables, collections and controls that an app has which is to come.
    pub fn make_room(&mut self, names: &Names) -> Result<(), Memory>
        ensures made { IfOk result (λ _. self.new
            ≡ record self.old { room = room_with names.now self.old.room }) }
        ensures err { OnErr result (self.new ≡ self.old) }
    {
        let variables = names.variables.len().max(self.spare_variables.capacity());
        let collections = names
            .collections
            .len()
            .max(self.spare_collections.capacity());
        let controls = names.controls.len().max(self.spare_inputs.capacity());
        let variables = Vec::with_capacity(self.alloc, variables)?;
        let collections = Vec::with_capacity(self.alloc, collections)?;
        let inputs = Vec::with_capacity(self.alloc, controls)?;
        let chosen = Vec::with_capacity(self.alloc, controls)?;
        self.spare_variables = variables;
        self.spare_collections = collections;
        self.spare_inputs = inputs;
        self.spare_chosen = chosen;
        Ok(())
    }

    /// Gives the room back.
    pub fn drop_room(&mut self)
        ensures { self.new ≡ record self.old { room = no_session_room } }
    {
        self.spare_variables = Vec::new(self.alloc);
        self.spare_collections = Vec::new(self.alloc);
        self.spare_inputs = Vec::new(self.alloc);
        self.spare_chosen = Vec::new(self.alloc);
    }

    /// Goes over to an edited app. What both apps have keeps its value, and the room is used up. It
    /// takes no memory.
    pub fn carry(&mut self, old: &Names, new: &Names)
        requires variables { length new.now.variables ≤ self.old.room.variables }
        requires collections { length new.now.collections ≤ self.old.room.collections }
        ensures { self.new ≡ carried old.now new.now self.old }
    {
        let mut variables = mem::replace(&mut self.spare_variables, Vec::new(self.alloc));
        let mut collections = mem::replace(&mut self.spare_collections, Vec::new(self.alloc));
        carry_variables(old, new, &mut self.variables, &mut variables);
        carry_collections(
            self.alloc,
            old,
            new,
            &mut self.collections,
            &mut collections,
        );
        self.weight = total_weight(&variables) + total_weight(&collections);
        self.variables = variables;
        self.collections = collections;
        self.spare_inputs = Vec::new(self.alloc);
        self.spare_chosen = Vec::new(self.alloc);
    }

    /// Goes over to an app that replaces the old one. What both apps have keeps its value, and the
    /// room is used up. It takes no memory.
    pub fn carry_over(&mut self, old: &Names, new: &Names)
        requires room { HasSessionRoom new.now self.old.room }
        requires screens { length new.now.screens < 2 ^ 32 }
        ensures { self.new ≡ carried_over old.now new.now self.old }
    {
        self.carry_controls(&old.controls, &new.controls);
        self.screen = screen_over(old, new, self.screen);
        self.carry(old, new);
    }

    // Moves what users gave and chose to the controls of another app, and uses their room up.
    fn carry_controls(&mut self, old: &ControlList, new: &ControlList)
        requires { length new.now ≤ self.old.room.controls }
        ensures { self.new ≡ with_controls old.now new.now self.old }
    {
        let mut inputs = mem::replace(&mut self.spare_inputs, Vec::new(self.alloc));
        let mut chosen = mem::replace(&mut self.spare_chosen, Vec::new(self.alloc));
        carry_inputs(old, new, &mut self.inputs, &mut inputs);
        carry_kept(old, new, &mut self.chosen, &mut chosen);
        self.inputs = inputs;
        self.chosen = chosen;
    }

    /// The value of a variable or a collection, or what the user gave, which is blank where nothing
    /// was given.
    pub fn get(&self, source: Source) -> Result<Value, Memory>
        requires { Holds self.now source }
        ensures value { IfOk result (λ v. view v ≡ stored_value self.now source) }
        ensures fits { (names : AppNames) (t : Shape) → FitsNames names self.now
            → sources names source ≡ Some t → fits_in (stored_value self.now source) t ≡ true }
    {
        match source {
            Source::Global(number) | Source::Context(number) => {
                self.variables[number as usize].copy(self.alloc)
            }
            Source::Gathered(number) => self.collections[number as usize].copy(self.alloc),
            Source::Input(number) => match &self.inputs[number as usize] {
                Some(value) => value.copy(self.alloc),
                None => Ok(Value::Blank),
            },
            Source::Cell(_) | Source::Chosen(_) | Source::Table(_) | Source::Today =>
                unreachable!(),
        }
    }

    /// Makes a change, and says whether it was made. It is refused where the variables and
    /// collections would come to weigh more than before and more than 4,194,304 bytes, and at the
    /// eleventh notice. Only a notice takes memory.
    pub fn change(&mut self, change: Change) -> Result<bool, Memory>
        requires { IsThere change self.old }
        ensures answer { IfOk result (λ done. done ≡ not (is_change_refused change self.old)) }
        ensures changed { IfOk result (λ done. self.new
            ≡ (if done then made change self.old else self.old)) }
        ensures err { OnErr result (self.new ≡ self.old) }
        ensures memory { OnErr result (IsNotice change) }
        ensures fits { (names : AppNames) → FitsNames names self.old → FitsChange names change
            → FitsNames names self.new }
    {
        self.make(change)
    }

    // Makes a change, where it isn't refused. That the session goes on fitting the app's names is
    // proved in `change`, over these clauses alone.
    fn make(&mut self, change: Change) -> Result<bool, Memory>
        requires { IsThere change self.old }
        ensures answer { IfOk result (λ done. done ≡ not (is_change_refused change self.old)) }
        ensures changed { IfOk result (λ done. self.new
            ≡ (if done then made change self.old else self.old)) }
        ensures err { OnErr result (self.new ≡ self.old) }
        ensures memory { OnErr result (IsNotice change) }
    {
        match change {
            Change::Global(number, value) | Change::Context(number, value) => {
                Ok(self.put_variable(number, value))
            }
            Change::Gather(number, value) => Ok(self.put_collection(number, value)),
            Change::Empty(number) => {
                let none = Value::Tab(Rows::new(self.alloc));
                Ok(self.put_collection(number, none))
            }
            Change::Input(number, value) => {
                self.inputs[number as usize] = value;
                Ok(true)
            }
            Change::Choose(number, position, id) => {
                self.chosen[number as usize] = Some((position, id));
                Ok(true)
            }
            Change::Screen(number) => {
                self.screen = number;
                self.navigated = true;
                Ok(true)
            }
            Change::Notice(text) => self.add_notice(text),
        }
    }

    // Gives a variable its value, where the weight allows it.
    fn put_variable(&mut self, number: u32, value: Value) -> bool
        requires { number < length self.old.variables }
        ensures answer { result ≡ may_weigh (weight_of self.old)
            (weight_of (record self.old {
              variables = slice_set self.old.variables number
                  (view value);
            })) }
        ensures changed { self.new ≡ (if result then record self.old
            { variables = slice_set self.old.variables number (view value) } else self.old) }
    {
        put(&mut self.variables, &mut self.weight, number, value)
    }

    // Makes a collection this table, where the weight allows it.
    fn put_collection(&mut self, number: u32, value: Value) -> bool
        requires { number < length self.old.collections }
        ensures answer { result ≡ may_weigh (weight_of self.old)
            (weight_of (record self.old {
              collections = slice_set self.old.collections number
                  (view value);
            })) }
        ensures changed { self.new ≡ (if result then record self.old
            { collections = slice_set self.old.collections number (view value) } else self.old) }
    {
        put(&mut self.collections, &mut self.weight, number, value)
    }

    // Adds a notice, of which there are ten at most.
    fn add_notice(&mut self, text: Words) -> Result<bool, Memory>
        ensures answer { IfOk result (λ done. done ≡ not (nat_le 10 (length self.old.notices))) }
        ensures changed { IfOk result (λ done. self.new
            ≡ (if done then record self.old { notices = self.old.notices ++ text ∷ [] } else
            self.old)) }
        ensures err { OnErr result (self.new ≡ self.old) }
    {
        if self.notices.len() >= MOST_NOTICES {
            return Ok(false);
        }
        self.notices.push(text)?;
        Ok(true)
    }

    /// What a request of this number and body means.
    pub fn turn(&self, seq: u32, body: &[u8]) -> Turn
        ensures { result ≡ turn_of self.now.kept seq body.now }
    {
        self.caller.turn(seq, body)
    }

    /// A request was accepted and answered so.
    pub fn keep(&mut self, seq: u32, body: Vec<u8>, reply: Vec<u8>)
        ensures { self.new ≡ record self.old {
          kept = record {
            last = seq;
            body = body.items;
            reply = reply.items;
          };
        } }
    {
        self.caller.keep(seq, body, reply);
    }

    /// The reply to the last accepted request.
    pub fn kept(&self) -> &[u8]
        ensures { result.now ≡ self.now.kept.reply }
    {
        self.caller.last_reply()
    }

    /// The number of the current screen.
    pub fn screen(&self) -> u32
        ensures { result ≡ self.now.screen }
    {
        self.screen
    }

    /// What is chosen of a gallery: the position of the item, from 1, and its id where it has one.
    /// None where nothing was chosen.
    pub fn chosen(&self, gallery: u32) -> Option<(u32, Option<u32>)>
        ensures { result ≡ slice_index_or self.now.chosen gallery None }
    {
        self.chosen.get(gallery as usize).copied().flatten()
    }

    /// The notices of this request, and none is left.
    pub fn take_notices(&mut self) -> Vec<Words>
        ensures notices { result.items ≡ self.old.notices }
        ensures none { self.new ≡ record self.old { notices = [] } }
    {
        mem::replace(&mut self.notices, Vec::new(self.alloc))
    }

    /// Whether a screen was made the current one since this was asked last.
    pub fn take_navigated(&mut self) -> bool
        ensures navigated { result ≡ self.old.navigated }
        ensures taken { self.new ≡ record self.old { navigated = false } }
    {
        mem::replace(&mut self.navigated, false)
    }
}
