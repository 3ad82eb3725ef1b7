//! The path of a revision by number.

ghost use Rattle.std.specs.Prelude.{◌≡◌, ◌≤◌, ◌-◌, ◌^◌, ◌&&◌, IfOk, List, length, take, true};
ghost use Rattle.rev_num.specs.Path.{Path as DefinedPath, child, same};
ghost use Rattle.code_world.specs.Endings.{Names};
ghost use Rattle.code_runs.specs.Births.{IsNumberOf, forked_as, path_in};

use code_world::Birth;
use rev_num::Path;
use std::alloc::{AllocError, Global};

/// The birth of the revision of this number, if another one forked it.
fn forked_as(births: &[Birth], number: usize) -> Option<Birth>
    ensures { result ≡ forked_as births.now number }
{
    if number > 0 && number < births.len() {
        Some(births[number])
    } else {
        None
    }
}

/// The path of the revision of this number, and that of `main` where there is none. It takes a step
/// for each number of the path, though no clause says so. Want of memory is the one error.
pub fn path_of(alloc: Global, births: &[Birth], number: usize) -> Result<Path, AllocError>
    requires { (paths : List DefinedPath) × Names births.now paths }
    ensures { IfOk result (λ p. (paths : List DefinedPath) → Names births.now paths
        → p ≡ path_in paths number) }
{
    let mut places = Vec::new(alloc);
    let mut at = number;
    while let Some(birth) = forked_as(births, at) {
        places.push(birth.place)?;
        at = birth.forker as usize;
    }
    places.reverse();
    Ok(Path::from_numbers(places))
}

/// Whether a list is so long, and this stands at its end.
fn ends_with(places: &[u32], count: usize, place: u32) -> bool
    requires { count ≤ length places.now }
    ensures yes { result ≡ true → 1 ≤ count }
    ensures same { (q : DefinedPath) → same (child q place) (take count places.now)
        ≡ (result && same q (take (count - 1) places.now)) }
{
    count > 0 && places[count - 1] == place
}

/// Whether these are the numbers of the path of the revision of this number.
fn is_path(births: &[Birth], number: usize, places: &[u32]) -> bool
    requires { (paths : List DefinedPath) × Names births.now paths }
    ensures { (paths : List DefinedPath) → Names births.now paths
        → result ≡ same (path_in paths number) places.now }
{
    let mut at = number;
    let mut count = places.len();
    while let Some(birth) = forked_as(births, at) {
        if !ends_with(places, count, birth.place) {
            return false;
        }
        at = birth.forker as usize;
        count -= 1;
    }
    count == 0
}

/// The number of the revision of this path, if there is one. It takes no memory.
pub fn number_of(births: &[Birth], path: &Path) -> Option<u32>
    requires few { length births.now ≤ 2 ^ 32 }
    requires names { (paths : List DefinedPath) × Names births.now paths }
    ensures { (paths : List DefinedPath) → Names births.now paths
        → IsNumberOf paths path.now result }
{
    for number in 0..births.len() {
        if is_path(births, number, path.numbers()) {
            return Some(number as u32);
        }
    }
    None
}
