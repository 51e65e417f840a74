//! Lists of names: each once, and the places of parameters.
ghost use Rattle.std.specs.Prelude.{◌≡◌, ℕ, ◌++◌, List, [], All, IfOk, OnOk, map, option_to_list};
ghost use Rattle.std.specs.BTreeMap.{get};
ghost use Rattle.std.specs.Ordering.{nat_cmp};
ghost use Rattle.std.specs.Cmp.Lexicographic.{slice_cmp};
ghost use Rattle.js_tree.specs.Forest.{IsFun};
ghost use Rattle.js_tree.specs.Trees.{trees};
ghost use Rattle.widget_meaning.specs.Properties.{is_listed};
ghost use Rattle.widget_meaning.specs.Scopes.{distinct};
ghost use Rattle.js_names.specs.Hoisting.{fun_texts};
ghost use Rattle.js_names.specs.Names.{ArePlaced, if_new, last_place, unlisted};

use code_units::{Memory, Text};
use js_tree::{FunId, ScopeName, Tree};
use std::alloc::Global;
use std::collections::{BTreeMap, BTreeSet};

/// Puts all names of a list behind those that are there.
pub fn add_all(names: &mut Vec<Text>, list: &[Text]) -> Result<(), Memory>
    ensures { OnOk result (names.new.items ≡ names.old.items ++ list.now) }
{
    'list: for name in list {
        names.push(name.share()?)?;
    }
    Ok(())
}

/// Puts the names of functions behind those that are there.
pub fn add_funs(names: &mut Vec<Text>, tree: &Tree, list: &[FunId]) -> Result<(), Memory>
    requires { All (IsFun (trees tree.now)) list.now }
    ensures { OnOk result (names.new.items ≡ names.old.items ++ fun_texts (trees tree.now) list.now) }
{
    'list: for id in list {
        add_option(names, &tree.fun(*id).name)?;
    }
    Ok(())
}

fn add_option(names: &mut Vec<Text>, name: &Option<Text>) -> Result<(), Memory>
    ensures { OnOk result (names.new.items ≡ names.old.items ++ option_to_list name.now) }
{
    match name {
        Some(name) => {
            names.push(name.share()?)?;
            Ok(())
        }
        None => Ok(()),
    }
}

/// Each name once, at its first place.
pub fn each_once(alloc: Global, list: &[Text]) -> Result<Vec<Text>, Memory>
    ensures { IfOk result (λ v. v.items ≡ distinct [] list.now) }
{
    let mut seen = BTreeSet::new(alloc);
    let mut names = Vec::new(alloc);
    'list: for name in list {
        let is_new = seen.insert(name.share()?)?;
        add_if(&mut names, name, is_new)?;
    }
    Ok(names)
}

fn add_if(names: &mut Vec<Text>, name: &Text, is_new: bool) -> Result<(), Memory>
    ensures { OnOk result (names.new.items ≡ names.old.items ++ if_new is_new name.now) }
{
    if is_new {
        names.push(name.share()?)?;
    }
    Ok(())
}

/// A name that is none of these.
pub fn unlisted(names: &[Text], name: &Option<Text>) -> Result<Option<Text>, Memory>
    ensures { IfOk result (λ o. o ≡ unlisted names.now name.now) }
{
    match name {
        Some(name) => {
            if is_listed(names, name) {
                Ok(None)
            } else {
                Ok(Some(name.share()?))
            }
        }
        None => Ok(None),
    }
}

fn is_listed(names: &[Text], name: &Text) -> bool
    ensures { result ≡ is_listed names.now name.now }
{
    names.iter().any(|x| *name == *x)
}

/// The place of the last parameter of each name.
pub fn last_places(alloc: Global, params: &[Text]) -> Result<BTreeMap<Text, usize>, Memory>
    ensures { IfOk result (λ m. (x : List ℕ) → get (slice_cmp nat_cmp) m x ≡ last_place params.now x) }
{
    let mut places = BTreeMap::new(alloc);
    'params: for (i, param) in params.iter().enumerate() {
        places.insert(param.share()?, i)?;
    }
    Ok(places)
}

/// The names with the places of their parameters.
pub fn with_places(
    alloc: Global,
    names: &[Text],
    places: &BTreeMap<Text, usize>,
) -> Result<Vec<ScopeName>, Memory>
    ensures names { IfOk result (λ v. map (λ x. x.text) v.items ≡ names.now) }
    ensures places { IfOk result (λ v. ArePlaced (get (slice_cmp nat_cmp) places.now) v.items) }
{
    let mut list = Vec::new(alloc);
    'names: for name in names {
        let argument = places.get(name).copied();
        list.push(ScopeName {
            text: name.share()?,
            argument,
        })?;
    }
    Ok(list)
}
