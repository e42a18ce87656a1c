//! The body of an input.
ghost use Rattle.std.specs.Prelude.{◌≡◌, ◌≤◌, IfOk};
ghost use Rattle.serde_json.specs.View.{view as json_view};
ghost use Rattle.numbered_requests.specs.GivenValues.{value_in as value_of};
ghost use Rattle.session_requests.specs.Bodies.{input_in};

use fx_base::Memory;
use fx_types::{Value, Words};
use numbered_requests::Body;
use numbered_requests::values::{member_count, number_at, text_at, value_in};
use serde_json::Value as Json;
use std::alloc::Global;
use std::marker::Model;

/// An input of a control under its number.
#[derive(Drop)]
pub struct Input {
    pub seq: u32,
    pub control: Words,
    pub value: Given,
}

/// A value that was given. None stands for JSON that is no value.
// A struct, so that contracts see the value alone.
#[derive(Drop)]
pub struct Given {
    pub value: Option<Value>,
}

impl Model for Given {
    ghost use Rattle.std.specs.Prelude.{Option, option_map};
    ghost use Rattle.std.specs.Coded.{codes};
    ghost use Rattle.fx_types.specs.ValueCode.{data_code};
    ghost use Rattle.fx_types.specs.Values.{Data};
    ghost use Rattle.fx_types.specs.ValueView.{view as value_view};

    ghost Value = { Option Data };

    ghost coded = { Prim.hlevel (codes, data_code) };

    ghost view = { λ g. option_map value_view g.value };
}

impl Body for Input {
    ghost asked = { input_in };

    ghost number = { λ i. i.seq };

    ghost sound = { λ i. 1 ≤ i.seq };

    fn read(alloc: Global, json: &Json) -> Result<Option<Input>, Memory> {
        if member_count(json) != 3 {
            return Ok(None);
        }
        let Some(seq) = number_at(json, "seq") else {
            return Ok(None);
        };
        let Some(control) = text_at(alloc, json, "control")? else {
            return Ok(None);
        };
        let Some(member) = json.get("value") else {
            return Ok(None);
        };
        let value = read_value(alloc, member)?;
        Ok(Some(Input {
            seq,
            control,
            value,
        }))
    }

    fn seq(&self) -> u32 {
        self.seq
    }

    ghost counted = { λ i h. h };
}

// What JSON gives.
fn read_value(alloc: Global, json: &Json) -> Result<Given, Memory>
    ensures { IfOk result (λ g. g ≡ value_of (json_view json.now)) }
{
    let value = value_in(alloc, json)?;
    Ok(Given { value })
}
