//! A page becomes a host.
ghost use Rattle.std.specs.Prelude.{IfOk};
ghost use Rattle.std.specs.List.{IsDistinct};
ghost use Rattle.std.specs.Str.{bytes_eq};
ghost use Rattle.page_plan.specs.Loadable.{names_of};
ghost use Rattle.widget_host.specs.Housed.{Loads};

use crate::host::Host;
use code_units::Memory;
use keyed_names::Keys;
use page_load::{Loaded, load_page};
use page_plan::PageSpec;
use std::alloc::Global;

/// The host of a page: each slot with its first life, and nothing given.
pub(crate) fn load_host(alloc: Global, keys: Keys, spec: PageSpec) -> Result<Host, Memory>
    requires { IsDistinct bytes_eq (names_of spec) }
    ensures { IfOk result (Loads spec) }
{
    let Loaded {
        lives,
        slots,
        libs,
        channels,
    } = load_page(alloc, keys, spec)?;
    Ok(Host {
        lives,
        slots,
        libs,
        keys,
        channels,
        given: 0,
        ends: Vec::new(alloc),
        marked: false,
    })
}
