//! Reads the channels of a manifest.
ghost use Rattle.std.specs.Prelude.{◌≡◌, ◌<◌, ◌^◌, ℕ, List, IfOk, IsErrOf, codes, length, map};
ghost use Rattle.std.specs.List.{list_any};
ghost use Rattle.serde_json.specs.Find.{get};
ghost use Rattle.serde_json.specs.View.{view};
ghost use Rattle.manifest_shape.specs.Manifest.{slot_in, same_channel, IsChannel, AreChannels, IsChannels};

use code_units::Text;
use json_shapes::{Misfit, list_in, place_of_name};
use serde_json::Value;
use std::alloc::Global;

/// The channels that a manifest may have.
const MOST_CHANNELS: usize = 64;

fn slot_in(ends: &[Value], at: usize, names: &[Text]) -> Option<usize>
    ensures { result ≡ slot_in names.now at (map view ends.now) }
{
    let Some(value) = ends.get(at) else {
        return None;
    };
    match value.as_str() {
        Some(text) => place_of_name(text, names),
        None => None,
    }
}

fn read_channel(pair: &Value, names: &[Text]) -> Result<(u32, u32), Misfit>
    requires { length names.now < 2 ^ 32 }
    ensures ok { IfOk result (λ channel. IsChannel names.now (view pair.now) channel) }
    ensures misfit { IsErrOf result Misfit.Shape → (channel : ℕ × ℕ) →
        ¬ IsChannel names.now (view pair.now) channel }
{
    let Some(ends) = list_in(pair) else {
        return Err(Misfit::Shape);
    };
    if ends.len() != 2 {
        return Err(Misfit::Shape);
    }
    let Some(from) = slot_in(ends, 0, names) else {
        return Err(Misfit::Shape);
    };
    let Some(to) = slot_in(ends, 1, names) else {
        return Err(Misfit::Shape);
    };
    if from == to {
        return Err(Misfit::Shape);
    }
    Ok((from as u32, to as u32))
}

fn is_given(channels: &[(u32, u32)], channel: (u32, u32)) -> bool
    ensures { result ≡ list_any (λ c. same_channel c channel) channels.now }
{
    channels
        .iter()
        .any(|c| c.0 == channel.0 && c.1 == channel.1)
}

fn read_pairs(alloc: Global, pairs: &[Value], names: &[Text]) -> Result<Vec<(u32, u32)>, Misfit>
    requires { length names.now < 2 ^ 32 }
    ensures ok { IfOk result (λ channels. AreChannels names.now (map view pairs.now) channels.items) }
    ensures misfit { IsErrOf result Misfit.Shape → (channels : List (ℕ × ℕ)) →
        ¬ AreChannels names.now (map view pairs.now) channels }
{
    if pairs.len() > MOST_CHANNELS {
        return Err(Misfit::Shape);
    }
    let mut channels = Vec::new(alloc);
    'pairs: for pair in pairs {
        let channel = read_channel(pair, names)?;
        if is_given(&channels, channel) {
            return Err(Misfit::Shape);
        }
        channels.push(channel)?;
    }
    Ok(channels)
}

/// The channels of a manifest whose slots have these names, in order.
pub fn read_channels(
    alloc: Global,
    value: &Value,
    names: &[Text],
) -> Result<Vec<(u32, u32)>, Misfit>
    requires { length names.now < 2 ^ 32 }
    ensures ok { IfOk result
        (λ channels. IsChannels names.now (get (codes "channels") (view value.now)) channels.items) }
    ensures misfit { IsErrOf result Misfit.Shape → (channels : List (ℕ × ℕ)) →
        ¬ IsChannels names.now (get (codes "channels") (view value.now)) channels }
{
    let Some(found) = value.get("channels") else {
        return Ok(Vec::new(alloc));
    };
    let Some(pairs) = list_in(found) else {
        return Err(Misfit::Shape);
    };
    read_pairs(alloc, pairs, names)
}
